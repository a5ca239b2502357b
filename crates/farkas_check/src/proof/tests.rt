ghost use Rattle.std.specs.Prelude.{◌≡◌, ◌≤◌, All, IfOk};
ghost use Rattle.criteria_model.specs.Pairs.{IsFit};

use super::*;
use crate::cites::{Cite, Cites};
use answer_rows::Answer;
use criteria_model::{Tuple, Vector};
use std::alloc::Global;
use std::test::Fail;

// The largest number that a combination may hold.
const WIDEST: i128 = (1 << 96) - 1;

fn pair_of(left: &[u8; 3], right: &[u8; 3]) -> Pair
    requires left_within { All (λ x. x ≤ 25) left.now }
    requires right_within { All (λ x. x ≤ 25) right.now }
{
    Pair {
        left: Tuple::of(left),
        right: Tuple::of(right),
    }
}

fn answer(pair: Pair, side: Side) -> Answer
    ensures { result.pair ≡ pair }
{
    Answer { pair, side }
}

/// Weights on the first two answers.
fn two_cites(first: i128, second: i128) -> Result<Cites, Fail> {
    let cites = Cites::of(&[
        Cite {
            answer: 1,
            weight: first,
        },
        Cite {
            answer: 2,
            weight: second,
        },
    ]);
    Ok(cites.ok_or("no list of cites")?)
}

fn two_answers(alloc: Global, model: &Model, first: Answer, second: Answer) -> Result<Answers, Fail>
    requires first_fits { IsFit model.now.levels first.pair }
    requires second_fits { IsFit model.now.levels second.pair }
    ensures { IfOk result (λ list. All (λ answer. IsFit model.now.levels answer.pair) list.answers) }
{
    let mut answers = Answers::reserve(alloc, 2)?;
    answers.push(first);
    answers.push(second);
    Ok(answers)
}

/// A negative weight may stand only on an equal answer.
#[test]
fn negative_weight(rt: HostRuntime) -> Result<(), Fail> {
    let model = Model::new(&[2, 2, 2], 3)?;
    let first = pair_of(&[2, 1, 0], &[1, 2, 0]);
    let second = pair_of(&[0, 2, 1], &[0, 1, 2]);
    let pair = pair_of(&[2, 0, 1], &[1, 0, 2]);
    assert_eq!(rt; model.increments(), 3);
    assert!(rt; model.fits(&first) && model.fits(&second) && model.fits(&pair));
    let answers = two_answers(
        rt.alloc(),
        &model,
        answer(first, Side::Left),
        answer(second, Side::Left),
    )?;
    for (weight, want) in [(-1, Some(Flaw::Weight)), (1, None), (2, Some(Flaw::Sum))] {
        let combination = Combination {
            scale: 1,
            increments: Vector::of(&[0, 0, 0]),
            answers: two_cites(1, weight)?,
        };
        assert_eq!(rt;
            flaw(&model, &answers, &combination, &pair, Side::Left),
            want
        );
    }
    Ok(())
}

/// Scale, sums and strictness, on two equal answers.
#[test]
fn scale_sum_strict(rt: HostRuntime) -> Result<(), Fail> {
    let model = Model::new(&[2, 2, 2], 3)?;
    let first = pair_of(&[2, 1, 0], &[1, 2, 0]);
    let second = pair_of(&[2, 0, 1], &[1, 0, 2]);
    let pair = pair_of(&[0, 2, 1], &[0, 1, 2]);
    assert_eq!(rt; model.increments(), 3);
    assert!(rt; model.fits(&first) && model.fits(&second) && model.fits(&pair));
    let answers = two_answers(
        rt.alloc(),
        &model,
        answer(first, Side::Equal),
        answer(second, Side::Equal),
    )?;
    let cases = [
        (0, -1, Side::Left, Some(Flaw::Scale)),
        (1, -1, Side::Left, Some(Flaw::Increment)),
        (1, 1, Side::Left, Some(Flaw::Sum)),
        (1, 0, Side::Left, Some(Flaw::Strict)),
        (1, 0, Side::Equal, None),
    ];
    for (scale, own, verdict, want) in cases {
        let combination = Combination {
            scale,
            increments: Vector::of(&[own, 0, 0]),
            answers: two_cites(-1, 1)?,
        };
        assert_eq!(rt; flaw(&model, &answers, &combination, &pair, verdict), want);
    }
    Ok(())
}

/// The widest weights on two answers cancel, and the widest own weight is the widest scale's.
#[test]
fn widest_numbers_cancel(rt: HostRuntime) -> Result<(), Fail> {
    let model = Model::new(&[2, 2, 2], 3)?;
    let first = pair_of(&[2, 1, 0], &[1, 2, 0]);
    let pair = pair_of(&[2, 1, 1], &[1, 1, 1]);
    assert_eq!(rt; model.increments(), 3);
    assert!(rt; model.fits(&first) && model.fits(&pair));
    let answers = two_answers(
        rt.alloc(),
        &model,
        answer(first, Side::Left),
        answer(first, Side::Right),
    )?;
    for (own, want) in [(WIDEST, true), (WIDEST - 1, false)] {
        let combination = Combination {
            scale: WIDEST,
            increments: Vector::of(&[own, 0, 0]),
            answers: two_cites(WIDEST, WIDEST)?,
        };
        assert_eq!(rt;
            proves(&model, &answers, &combination, &pair, Side::Left),
            want
        );
    }
    Ok(())
}
