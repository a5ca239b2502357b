use super::*;
use criteria_model::ModelFault;
use std::test::Fail;

/// The list of three criteria of three levels, from its first pair to its last.
#[test]
fn three_by_three(rt: HostRuntime) -> Result<(), Fail> {
    let model = Model::new(&[3, 3, 3], 3).ok().expect(&rt, "a model");
    let classes = Classes::list(rt.alloc(), &model)?;
    assert_eq!(rt; classes.count(), 108);
    let first = Pair {
        left: Tuple::of(&[2, 1, 0]),
        right: Tuple::of(&[1, 2, 0]),
    };
    let last = Pair {
        left: Tuple::of(&[3, 3, 2]),
        right: Tuple::of(&[2, 2, 3]),
    };
    assert!(rt; classes.class(1) == first);
    assert!(rt; classes.class(108) == last);
    assert_eq!(rt; classes.place(&first), Some(1));
    assert_eq!(rt; classes.place(&last), Some(108));
    Ok(())
}

/// Each class is found at its place, and with its sides exchanged at none.
#[test]
fn places(rt: HostRuntime) -> Result<(), Fail> {
    let model = Model::new(&[4, 2, 3], 3).ok().expect(&rt, "a model");
    let classes = Classes::list(rt.alloc(), &model)?;
    for place in 1..classes.count() + 1 {
        let class = classes.class(place);
        let turned = Pair {
            left: class.right,
            right: class.left,
        };
        assert_eq!(rt; classes.place(&class), Some(place));
        assert_eq!(rt; classes.place(&turned), None);
    }
    Ok(())
}

/// Two alternatives that stand as their class does.
#[test]
fn places_of_alternatives(rt: HostRuntime) -> Result<(), Fail> {
    let model = Model::new(&[3, 3, 3], 2).ok().expect(&rt, "a model");
    let classes = Classes::list(rt.alloc(), &model)?;
    assert!(rt; classes.model() == model);
    let place = classes.place_of(&Tuple::of(&[2, 1, 3]), &Tuple::of(&[1, 2, 3]));
    assert_eq!(rt; place, Some((1, Flip::Kept)));
    Ok(())
}

/// The same two, the other way round.
#[test]
fn places_of_turned_alternatives(rt: HostRuntime) -> Result<(), Fail> {
    let model = Model::new(&[3, 3, 3], 2).ok().expect(&rt, "a model");
    let classes = Classes::list(rt.alloc(), &model)?;
    let place = classes.place_of(&Tuple::of(&[1, 2, 3]), &Tuple::of(&[2, 1, 3]));
    assert_eq!(rt; place, Some((1, Flip::Turned)));
    Ok(())
}

/// How many classes the list has: 24 criteria of two levels, and six of four. One degree more for the first
/// makes no model, so there is no list.
#[test]
fn class_counts(rt: HostRuntime) -> Result<(), Fail> {
    let table: [(&[u32], u32, u32); 4] = [
        (&[2; 24], 2, 276),
        (&[2; 24], 3, 6_348),
        (&[4; 6], 2, 540),
        (&[4; 6], 3, 13_500),
    ];
    for (levels, degree, want) in table {
        let model = Model::new(levels, degree).ok().expect(&rt, "a model");
        let classes = Classes::list(rt.alloc(), &model)?;
        assert_eq!(rt; classes.count(), want);
    }
    let refused = Model::new(&[2; 24], 4).err();
    assert_eq!(rt; refused, Some(ModelFault::Classes { count: 80_730 }));
    Ok(())
}
