//! Decisions known by hand or by a search over small vectors, and decisions on many answers, each
//! with its certificate tested.
ghost use Rattle.std.specs.Prelude.{◌≤◌, All, IfOk};
ghost use Rattle.criteria_model.specs.Worth.{IsValueVector};
ghost use Rattle.criteria_model.specs.Pairs.{IsFit};
ghost use Rattle.criteria_model.specs.Answers.{MeetsAll};
ghost use Rattle.decider.specs.Standing.{HasRoomForRows};

use super::*;
use crate::point::point_with;
use crate::tools::Tools;
use answer_rows::Answer;
use criteria_model::{MAX_INCREMENTS, MAX_LEVEL, Tuple};
use farkas_check::{Cite, Cites, Combination, proves};
use std::alloc::Global;
use std::process::Abort;
use std::test::Fail;
use witness_check::{meets, opens};

/// Two alternatives on three criteria, and how they are ranked.
type Ranking = ([u8; 3], [u8; 3], Side);

fn pair_of(rt: &impl Abort, left: &[u8], right: &[u8]) -> Pair {
    Pair {
        left: tuple_of(rt, left),
        right: tuple_of(rt, right),
    }
}

fn tuple_of(rt: &impl Abort, levels: &[u8]) -> Tuple {
    assert!(rt; !levels.is_empty() && levels.len() <= MAX_INCREMENTS);
    assert!(rt; levels.iter().all(|level| *level <= MAX_LEVEL));
    Tuple::of(levels)
}

fn values_of(rt: &impl Abort, model: &Model, values: &[i128]) -> Vector
    ensures { IsValueVector model.now.levels result }
{
    assert!(rt; values.len() == usize::from(model.increments()));
    assert!(rt; values.iter().all(|value| *value >= 1 && *value < 100));
    Vector::of(values)
}

fn answered(
    rt: &impl Abort,
    model: &Model,
    answers: &mut Answers,
    pair: Pair,
    side: Side,
) -> Result<(), Fail>
    requires { All (λ answer. IsFit model.now.levels answer.pair) answers.old.answers }
    ensures { All (λ answer. IsFit model.now.levels answer.pair) answers.new.answers }
{
    if !model.fits(&pair) {
        return Err(Fail::from("a pair of another model"));
    }
    assert!(rt; answers.len() < 100);
    answers.grow(1)?;
    answers.push(Answer { pair, side });
    Ok(())
}

fn answers_of(
    rt: &impl Abort,
    alloc: Global,
    model: &Model,
    list: &[Ranking],
) -> Result<Answers, Fail>
    ensures { IfOk result (λ answers. All (λ answer. IsFit model.now.levels answer.pair) answers.answers) }
{
    let mut answers = Answers::reserve(alloc, 0)?;
    for ranking in list {
        let (left, right, side) = ranking;
        let pair = pair_of(rt, left, right);
        answered(rt, model, &mut answers, pair, *side)?;
    }
    Ok(answers)
}

/// The ranking that is decided, or `None` where the pair is open; the certificate is tested.
fn certified(
    rt: &impl Abort,
    model: &Model,
    answers: &Answers,
    point: &Vector,
    pair: &Pair,
    work: &mut Dictionary,
) -> Option<Side>
    requires answers_fit { All (λ answer. IsFit model.now.levels answer.pair) answers.now.answers }
    requires pair_fits { IsFit model.now.levels pair.now }
    requires meets { MeetsAll model.now.levels answers.now.answers point.now }
    requires room { HasRoomForRows model.now.levels answers.now.answers work.old }
    ensures { HasRoomForRows model.now.levels answers.now.answers work.new }
{
    match decide(model, answers, point, pair, work) {
        Decision::Undecided { plus, minus } => {
            assert!(rt; opens(model, answers, pair, &plus, &minus));
            None
        }
        Decision::Implied {
            verdict,
            combination,
        } => {
            assert!(rt; proves(model, answers, &combination, pair, verdict));
            Some(verdict)
        }
    }
}

/// Two answers on a model, a vector that meets them, a pair, and its ranking.
#[derive(Clone, Copy)]
struct Case {
    levels: [u32; 3],
    known: [Ranking; 2],
    point: [i128; 5],
    left: [u8; 3],
    right: [u8; 3],
    want: Option<Side>,
}

fn decided(rt: &impl Abort, alloc: Global, case: &Case) -> Result<Option<Side>, Fail> {
    let model = Model::new(&case.levels, 2)?;
    let increments = usize::from(model.increments());
    assert!(rt; increments <= 5);
    let answers = answers_of(rt, alloc, &model, &case.known)?;
    let point = values_of(rt, &model, &case.point[..increments]);
    assert!(rt; answers.len() == 2 && meets(&model, &answers, &point));
    let pair = pair_of(rt, &case.left, &case.right);
    assert!(rt; model.fits(&pair));
    let mut work = Dictionary::reserve(alloc, 5, 6)?;
    Ok(certified(rt, &model, &answers, &point, &pair, &mut work))
}

/// The table of bench/decisions.py: two answers on small models.
const SEARCHED: [Case; 20] = [
    Case {
        levels: [2, 2, 2],
        known: [
            ([1, 0, 2], [2, 0, 1], Side::Right),
            ([0, 2, 1], [0, 1, 2], Side::Equal),
        ],
        point: [4, 2, 2, 0, 0],
        left: [2, 1, 0],
        right: [1, 2, 0],
        want: Some(Side::Left),
    },
    Case {
        levels: [2, 3, 3],
        known: [
            ([2, 2, 0], [1, 3, 0], Side::Equal),
            ([0, 3, 2], [0, 2, 3], Side::Right),
        ],
        point: [1, 1, 1, 3, 4],
        left: [1, 3, 0],
        right: [2, 1, 0],
        want: Some(Side::Left),
    },
    Case {
        levels: [3, 3, 2],
        known: [
            ([3, 1, 1], [2, 3, 2], Side::Equal),
            ([1, 3, 2], [2, 2, 1], Side::Left),
        ],
        point: [2, 4, 1, 1, 2],
        left: [3, 2, 2],
        right: [1, 3, 1],
        want: Some(Side::Left),
    },
    Case {
        levels: [2, 2, 2],
        known: [
            ([0, 2, 1], [0, 1, 2], Side::Right),
            ([2, 2, 1], [1, 1, 2], Side::Right),
        ],
        point: [1, 1, 4, 0, 0],
        left: [1, 1, 2],
        right: [2, 2, 1],
        want: Some(Side::Left),
    },
    Case {
        levels: [2, 2, 2],
        known: [
            ([2, 1, 0], [1, 2, 0], Side::Equal),
            ([2, 0, 1], [1, 0, 2], Side::Left),
        ],
        point: [3, 3, 1, 0, 0],
        left: [2, 1, 2],
        right: [1, 2, 1],
        want: Some(Side::Left),
    },
    Case {
        levels: [2, 3, 3],
        known: [
            ([1, 0, 3], [2, 0, 1], Side::Left),
            ([0, 1, 2], [0, 3, 1], Side::Right),
        ],
        point: [4, 3, 3, 3, 3],
        left: [2, 1, 2],
        right: [1, 3, 3],
        want: Some(Side::Right),
    },
    Case {
        levels: [2, 2, 2],
        known: [
            ([0, 1, 2], [0, 2, 1], Side::Right),
            ([2, 1, 2], [1, 2, 1], Side::Left),
        ],
        point: [3, 2, 1, 0, 0],
        left: [1, 2, 1],
        right: [2, 1, 2],
        want: Some(Side::Right),
    },
    Case {
        levels: [2, 3, 3],
        known: [
            ([1, 0, 3], [2, 0, 2], Side::Left),
            ([2, 1, 3], [1, 2, 1], Side::Left),
        ],
        point: [1, 2, 4, 1, 4],
        left: [2, 1, 2],
        right: [1, 2, 3],
        want: Some(Side::Right),
    },
    Case {
        levels: [3, 3, 2],
        known: [
            ([2, 3, 1], [1, 2, 2], Side::Equal),
            ([2, 0, 1], [1, 0, 2], Side::Right),
        ],
        point: [2, 4, 3, 2, 4],
        left: [1, 1, 2],
        right: [2, 3, 1],
        want: Some(Side::Right),
    },
    Case {
        levels: [2, 2, 2],
        known: [
            ([2, 2, 1], [1, 1, 2], Side::Equal),
            ([1, 2, 0], [2, 1, 0], Side::Equal),
        ],
        point: [1, 1, 2, 0, 0],
        left: [2, 0, 1],
        right: [1, 0, 2],
        want: Some(Side::Right),
    },
    Case {
        levels: [2, 2, 2],
        known: [
            ([2, 1, 0], [1, 2, 0], Side::Equal),
            ([2, 1, 1], [1, 2, 2], Side::Right),
        ],
        point: [1, 1, 1, 0, 0],
        left: [1, 2, 0],
        right: [2, 1, 0],
        want: Some(Side::Equal),
    },
    Case {
        levels: [2, 3, 3],
        known: [
            ([0, 3, 1], [0, 2, 2], Side::Left),
            ([0, 2, 2], [0, 1, 3], Side::Equal),
        ],
        point: [4, 3, 2, 1, 3],
        left: [0, 1, 3],
        right: [0, 2, 2],
        want: Some(Side::Equal),
    },
    Case {
        levels: [2, 2, 2],
        known: [
            ([0, 2, 1], [0, 1, 2], Side::Equal),
            ([1, 2, 0], [2, 1, 0], Side::Equal),
        ],
        point: [4, 4, 4, 0, 0],
        left: [2, 1, 0],
        right: [1, 2, 0],
        want: Some(Side::Equal),
    },
    Case {
        levels: [2, 3, 3],
        known: [
            ([1, 3, 0], [2, 1, 0], Side::Left),
            ([1, 0, 3], [2, 0, 2], Side::Equal),
        ],
        point: [2, 3, 4, 2, 2],
        left: [2, 0, 2],
        right: [1, 0, 3],
        want: Some(Side::Equal),
    },
    Case {
        levels: [2, 3, 3],
        known: [
            ([1, 0, 2], [2, 0, 1], Side::Equal),
            ([1, 1, 2], [2, 3, 1], Side::Right),
        ],
        point: [4, 4, 3, 4, 3],
        left: [2, 0, 1],
        right: [1, 0, 2],
        want: Some(Side::Equal),
    },
    Case {
        levels: [2, 3, 3],
        known: [
            ([0, 1, 2], [0, 2, 1], Side::Left),
            ([1, 2, 1], [2, 1, 2], Side::Right),
        ],
        point: [3, 1, 4, 2, 1],
        left: [1, 2, 3],
        right: [2, 3, 1],
        want: None,
    },
    Case {
        levels: [2, 3, 3],
        known: [
            ([1, 0, 3], [2, 0, 1], Side::Left),
            ([0, 1, 3], [0, 3, 2], Side::Right),
        ],
        point: [1, 3, 3, 3, 4],
        left: [2, 2, 1],
        right: [1, 1, 2],
        want: None,
    },
    Case {
        levels: [2, 3, 3],
        known: [
            ([2, 1, 3], [1, 3, 2], Side::Right),
            ([1, 2, 1], [2, 1, 3], Side::Right),
        ],
        point: [2, 3, 3, 1, 3],
        left: [1, 2, 3],
        right: [2, 3, 2],
        want: None,
    },
    Case {
        levels: [3, 3, 2],
        known: [
            ([1, 3, 0], [2, 1, 0], Side::Left),
            ([2, 3, 2], [3, 2, 1], Side::Left),
        ],
        point: [3, 3, 4, 4, 2],
        left: [3, 2, 0],
        right: [1, 3, 0],
        want: None,
    },
    Case {
        levels: [3, 3, 2],
        known: [
            ([2, 2, 1], [1, 3, 2], Side::Right),
            ([1, 3, 0], [3, 2, 0], Side::Right),
        ],
        point: [2, 2, 1, 3, 1],
        left: [2, 2, 1],
        right: [1, 1, 2],
        want: None,
    },
];

#[test]
fn searched_decisions(rt: HostRuntime) -> Result<(), Fail> {
    for case in &SEARCHED {
        assert_eq!(rt; decided(&rt, rt.alloc(), case)?, case.want);
    }
    Ok(())
}

/// Three criteria of two levels: class 2 follows from classes 1 and 3.
#[test]
fn decide_implied(rt: HostRuntime) -> Result<(), Fail> {
    let model = Model::new(&[2, 2, 2], 3)?;
    assert_eq!(rt; model.increments(), 3);
    let known = [
        ([2, 1, 0], [1, 2, 0], Side::Left),
        ([0, 2, 1], [0, 1, 2], Side::Left),
    ];
    let answers = answers_of(&rt, rt.alloc(), &model, &known)?;
    let point = values_of(&rt, &model, &[3, 2, 1]);
    assert!(rt; answers.len() == 2 && meets(&model, &answers, &point));
    let pair = pair_of(&rt, &[2, 0, 1], &[1, 0, 2]);
    assert!(rt; model.fits(&pair));
    let mut work = Dictionary::reserve(rt.alloc(), 3, 6)?;
    let cites = Cites::of(&[
        Cite {
            answer: 1,
            weight: 1,
        },
        Cite {
            answer: 2,
            weight: 1,
        },
    ]);
    let combination = Combination {
        scale: 1,
        increments: Vector::of(&[0, 0, 0]),
        answers: cites.ok_or("no list of cites")?,
    };
    assert_eq!(rt;
        decide(&model, &answers, &point, &pair, &mut work),
        Decision::Implied {
            verdict: Side::Left,
            combination
        }
    );
    Ok(())
}

/// Three criteria of two levels with classes 1, 2 and 3 answered left.
#[test]
fn decide_all_implied(rt: HostRuntime) -> Result<(), Fail> {
    let model = Model::new(&[2, 2, 2], 3)?;
    assert_eq!(rt; model.increments(), 3);
    let known = [
        ([2, 1, 0], [1, 2, 0], Side::Left),
        ([2, 0, 1], [1, 0, 2], Side::Left),
        ([0, 2, 1], [0, 1, 2], Side::Left),
    ];
    let answers = answers_of(&rt, rt.alloc(), &model, &known)?;
    let point = values_of(&rt, &model, &[3, 2, 1]);
    assert!(rt; answers.len() == 3 && meets(&model, &answers, &point));
    let cases = [
        ([2, 1, 2], [1, 2, 1], Some(Side::Left)),
        ([2, 2, 1], [1, 1, 2], Some(Side::Left)),
        ([2, 1, 1], [1, 2, 2], None),
    ];
    for (left, right, want) in cases {
        let pair = pair_of(&rt, &left, &right);
        assert!(rt; model.fits(&pair));
        let mut work = Dictionary::reserve(rt.alloc(), 3, 8)?;
        let found = certified(&rt, &model, &answers, &point, &pair, &mut work);
        assert_eq!(rt; found, want);
    }
    Ok(())
}

/// With no answers a pair is open, and each side may be answered; all with the tools of a model.
#[test]
fn decide_open(rt: HostRuntime) -> Result<(), Fail> {
    let model = Model::new(&[2, 2, 2], 3)?;
    assert_eq!(rt; model.increments(), 3);
    let mut tools = Tools::reserve(rt.alloc(), &model)?;
    let point = values_of(&rt, &model, &[1, 1, 1]);
    assert_eq!(rt; tools.snapshot.point, point);
    let answers = &tools.snapshot.answers;
    assert!(rt; meets(&model, answers, &point));
    let pair = pair_of(&rt, &[2, 1, 0], &[1, 2, 0]);
    assert!(rt; model.fits(&pair));
    let work = &mut tools.work;
    let Decision::Undecided { plus, minus } = decide(&model, answers, &point, &pair, work) else {
        return Err(Fail::from("a pair is ranked by no answers"));
    };
    assert!(rt; opens(&model, answers, &pair, &plus, &minus));
    let equal = point_with(&model, answers, &plus, &minus, &pair, Side::Equal, work);
    assert_eq!(rt; model.ranking(&equal, &pair), Side::Equal);
    Ok(())
}

/// A pair of eight criteria on which two differ, the left side higher on one of them.
fn numbered_pair(rt: &impl Abort, number: u8, left_level: u8, right_level: u8) -> Pair {
    let first = usize::from(number) % 8;
    let second = (first + 1 + usize::from(number) / 8) % 8;
    let mut left = [0; 8];
    let mut right = [0; 8];
    left[first] = left_level;
    right[first] = 1;
    left[second] = 1;
    right[second] = right_level;
    pair_of(rt, &left, &right)
}

/// Forty answers, as the vector gives them.
fn answers_by(
    rt: &impl Abort,
    alloc: Global,
    model: &Model,
    point: &Vector,
) -> Result<Answers, Fail>
    requires { IsValueVector model.now.levels point.now }
    ensures { IfOk result (λ answers. All (λ answer. IsFit model.now.levels answer.pair) answers.answers) }
{
    let mut answers = Answers::reserve(alloc, 40)?;
    for number in 0..40_u8 {
        let pair = numbered_pair(rt, number, 2 + number % 3, 2 + number / 3 % 3);
        assert!(rt; model.fits(&pair));
        let side = model.ranking(point, &pair);
        answered(rt, model, &mut answers, pair, side)?;
    }
    Ok(answers)
}

/// How many of 56 pairs are open; each decision begins with the dictionary that the one before left.
fn open_pairs(
    rt: &impl Abort,
    model: &Model,
    answers: &Answers,
    point: &Vector,
    work: &mut Dictionary,
) -> u32
    requires answers_fit { All (λ answer. IsFit model.now.levels answer.pair) answers.now.answers }
    requires meets { MeetsAll model.now.levels answers.now.answers point.now }
    requires room { HasRoomForRows model.now.levels answers.now.answers work.old }
    ensures { result ≤ 56 }
{
    let mut open = 0;
    for number in 0..56_u8 {
        let pair = numbered_pair(rt, number, 2 + number / 2 % 3, 2 + number % 3);
        assert!(rt; model.fits(&pair));
        if certified(rt, model, answers, point, &pair, work).is_none() {
            open += 1;
        }
    }
    open
}

/// Forty answers over 24 increments, as a vector gives them; then pairs of other levels.
#[test]
fn forty_answers(rt: HostRuntime) -> Result<(), Fail> {
    let model = Model::new(&[4, 4, 4, 4, 4, 4, 4, 4], 2)?;
    assert_eq!(rt; model.increments(), 24);
    let point = values_of(
        &rt,
        &model,
        &[
            7, 31, 4, 12, 9, 26, 3, 18, 5, 22, 14, 8, 2, 41, 6, 11, 17, 29, 13, 1, 37, 10, 19, 23,
        ],
    );
    let answers = answers_by(&rt, rt.alloc(), &model, &point)?;
    assert!(rt; answers.len() == 40 && meets(&model, &answers, &point));
    let mut work = Dictionary::reserve(rt.alloc(), 24, 82)?;
    let open = open_pairs(&rt, &model, &answers, &point, &mut work);
    assert!(rt; 0 < open && open < 56);
    Ok(())
}
