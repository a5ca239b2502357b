use super::*;
use std::test::Fail;

/// The first fault that holds, for definitions worked out by hand.
#[test]
fn model_faults(rt: HostRuntime) {
    let faults = [
        (Model::new(&[], 1), ModelFault::NoCriteria),
        (
            Model::new(&[3, 1, 0], 9),
            ModelFault::Levels { criterion: 2 },
        ),
        (
            Model::new(&[13, 14], 0),
            ModelFault::Increments { count: 25 },
        ),
        (
            Model::new(&[u32::MAX, u32::MAX], 1),
            ModelFault::Increments {
                count: 8_589_934_588,
            },
        ),
        (Model::new(&[2, 2], 0), ModelFault::Degree),
        (Model::new(&[2, 2], 3), ModelFault::Degree),
        (
            Model::new(&[2; 24], 4),
            ModelFault::Classes { count: 80_730 },
        ),
    ];
    for (found, fault) in faults {
        assert!(rt; found == Err(fault));
    }
}

/// How many classes known models have.
#[test]
fn class_counts(rt: HostRuntime) {
    let counts = [
        (Model::new(&[25], 1), 0),
        (Model::new(&[2, 2], 2), 1),
        (Model::new(&[3, 3, 3], 3), 108),
        (Model::new(&[2; 24], 2), 276),
        (Model::new(&[2; 24], 3), 6348),
        (Model::new(&[4; 6], 2), 540),
        (Model::new(&[4; 6], 3), 13_500),
    ];
    for (found, count) in counts {
        assert!(rt; found.is_ok_and(|m| m.class_count() == count));
    }
}

/// The numbers of a small model.
#[test]
fn model_numbers(rt: HostRuntime) {
    let model = Model::new(&[3, 2], 2);
    assert!(rt; model.is_ok_and(|m| m.increments() == 3 && m.degree() == 2 && m.criteria() == 2));
}

/// A written pair by each call that speaks of it.
#[test]
fn pair_calls(rt: HostRuntime) -> Result<(), Fail> {
    let model = Model::new(&[3, 2], 2)?;
    assert_eq!(rt; model.criteria(), 2);
    assert_eq!(rt; model.levels(1), 3);
    let left = Tuple::of(&[2, 1]);
    let right = Tuple::of(&[1, 2]);
    let pair = Pair { left, right };
    assert!(rt; model.fits(&pair));
    assert!(rt; model.is_class(&pair));
    assert_eq!(rt; model.row(&pair), Row::of(&[1, 0, -1]));
    assert_eq!(rt; model.gain(&pair, Side::Right), Row::of(&[-1, 0, 1]));
    assert_eq!(rt; model.dominance(&pair), Dominance::Neither);
    assert_eq!(rt; model.degree_of(&pair), 2);
    Ok(())
}

/// Level 0 is worth what level 1 is.
#[test]
fn values(rt: HostRuntime) -> Result<(), Fail> {
    let model = Model::new(&[3, 2], 2)?;
    let vector = Vector::of(&[5, 7, 9]);
    assert_eq!(rt; model.increments(), 3);
    assert_eq!(rt; model.value(&vector, &Tuple::of(&[3, 0])), 12);
    assert_eq!(rt; vector.item(2), 7);
    Ok(())
}
