//! What no clause says: which decisions need no solve.
use super::*;
use crate::point::point_with;
use criteria_model::{Answer, Tuple};
use farkas_check::{Cite, Cites, Combination};
use std::test::Fail;
use witness_check::meets;

/// A pair that is open is decided again by the vectors that opened it, and one that follows from an answer by that.
#[test]
fn looks_before_it_solves(rt: HostRuntime) -> Result<(), Fail> {
    let model = Model::new(&[2, 2, 2], 3)?;
    let pair = Pair {
        left: Tuple::of(&[2, 1, 0]),
        right: Tuple::of(&[1, 2, 0]),
    };
    let implied = Pair {
        left: Tuple::of(&[2, 1, 2]),
        right: Tuple::of(&[1, 2, 1]),
    };
    assert_eq!(rt; model.class_count(), 6);
    assert!(rt; model.fits(&pair) && model.fits(&implied));
    let mut tools = Tools::reserve(rt.alloc(), &model)?;
    assert!(rt; meets(&model, &tools.snapshot.answers, &tools.snapshot.point));
    let first = tools.decide(&model, &pair);
    let added = tools.work.added();
    assert!(rt; meets(&model, &tools.snapshot.answers, &tools.snapshot.point));
    let Decision::Undecided { plus, minus } = tools.decide(&model, &pair) else {
        return Err("a pair is ranked by no answers".into());
    };
    assert!(rt; matches!(first, Decision::Undecided { .. }));
    let answers = &tools.snapshot.answers;
    let point = point_with(
        &model,
        answers,
        &plus,
        &minus,
        &pair,
        Side::Left,
        &mut tools.work,
    );
    tools.snapshot.point = point;
    tools.snapshot.answers.push(Answer {
        pair,
        side: Side::Left,
    });
    let decision = tools.decide(&model, &implied);
    assert_eq!(rt; tools.work.added(), added);
    let Some(answers) = Cites::of(&[Cite {
        answer: 1,
        weight: 1,
    }]) else {
        return Err("one cite is too many".into());
    };
    let combination = Combination {
        scale: 1,
        increments: Vector::of(&[0, 0, 1]),
        answers,
    };
    let verdict = Side::Left;
    assert_eq!(rt;
        decision,
        Decision::Implied {
            verdict,
            combination
        }
    );
    Ok(())
}
