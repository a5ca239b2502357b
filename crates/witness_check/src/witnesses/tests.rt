use super::*;
use criteria_model::Tuple;
use std::test::Fail;

/// A vector that opens a pair stays a witness only where it meets the answer that came later.
#[test]
fn kept_vectors(rt: HostRuntime) -> Result<(), Fail> {
    let model = Model::new(&[2, 2, 2], 3)?;
    let opened = Pair {
        left: Tuple::of(&[2, 1, 0]),
        right: Tuple::of(&[1, 2, 0]),
    };
    let answered = Pair {
        left: Tuple::of(&[2, 0, 1]),
        right: Tuple::of(&[1, 0, 2]),
    };
    assert_eq!(rt; model.increments(), 3);
    assert!(rt; model.fits(&opened) && model.fits(&answered));
    let more = Vector::of(&[2, 1, 1]);
    let less = Vector::of(&[1, 2, 1]);
    let mut answers = Answers::reserve(rt.alloc(), 1)?;
    assert!(rt; opens(&model, &answers, &opened, &more, &less));
    answers.push(Answer {
        pair: answered,
        side: Side::Left,
    });
    assert!(rt; meets_from(&model, &answers, 0, &more));
    assert!(rt; !meets(&model, &answers, &less));
    Ok(())
}
