//! What no clause says of a run: how many rows its dictionary gets.
use crate::decision::Decision;
use crate::decisions::decide;
use crate::point::point_with;
use answer_rows::Answers;
use criteria_model::{Answer, Model, Pair, Side, Tuple, Vector};
use fraction_free::Dictionary;
use std::test::Fail;
use witness_check::meets;

/// The dictionary of one decision serves the next, which adds the row of the new answer and those that it tries.
#[test]
fn warm_dictionary(rt: HostRuntime) -> Result<(), Fail> {
    let model = Model::new(&[2, 2, 2], 3)?;
    let first = Pair {
        left: Tuple::of(&[2, 1, 0]),
        right: Tuple::of(&[1, 2, 0]),
    };
    let second = Pair {
        left: Tuple::of(&[2, 0, 1]),
        right: Tuple::of(&[1, 0, 2]),
    };
    assert_eq!(rt; model.increments(), 3);
    assert!(rt; model.fits(&first) && model.fits(&second));
    let mut answers = Answers::reserve(rt.alloc(), 1)?;
    let mut work = Dictionary::reserve(rt.alloc(), 3, 4)?;
    let ones = Vector::of(&[1, 1, 1]);
    assert!(rt; meets(&model, &answers, &ones));
    let decision = decide(&model, &answers, &ones, &first, &mut work);
    let Decision::Undecided { plus, minus } = decision else {
        return Err("the first pair is ranked".into());
    };
    let point = point_with(
        &model,
        &answers,
        &plus,
        &minus,
        &first,
        Side::Left,
        &mut work,
    );
    assert_eq!(rt; point, Vector::of(&[2, 1, 1]));
    answers.push(Answer {
        pair: first,
        side: Side::Left,
    });
    let loads = work.loads();
    let added = work.added();
    let decision = decide(&model, &answers, &point, &second, &mut work);
    assert!(rt; matches!(decision, Decision::Undecided { .. }));
    assert_eq!(rt; work.loads(), loads);
    assert_eq!(rt; work.added(), added.wrapping_add(2));
    Ok(())
}
