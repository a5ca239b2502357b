ghost use Rattle.std.specs.Prelude.{◌≡◌, ◌<◌, length, unsigned_abs, IsTrue};
ghost use Rattle.criteria_model.specs.Worth.{increments, IsValueVector};
ghost use Rattle.survey_core.specs.Legal.{IsDesk, IsEvent};

use super::*;
use crate::limits::{MAX_DESKS, MAX_WORKERS};
use criteria_model::Tuple;
use farkas_check::Cite;
use std::process::Abort;
use std::test::Fail;

// What becomes of question 2, which asks class 2.
const NEVER: QuestionState = QuestionState::Never;

const OPEN: QuestionState = QuestionState::Live { place: 2 };

const GONE: QuestionState = QuestionState::Gone { place: 2 };

/// What a core is to say.
#[derive(Clone, Copy)]
struct Expected {
    /// The places of the ranked classes.
    ranked: &'static [u32],
    open_questions: u32,
    /// What became of question 2.
    second: QuestionState,
    answers: u32,
    withdrawals: u32,
}

/// An event that may follow, with what is said after it, or one that may not.
#[derive(Clone, Copy)]
enum Row {
    Taken { event: Event, after: Expected },
    Refused { event: Event, part: Broken },
}

fn taken(event: Event, after: Expected) -> Row {
    Row::Taken { event, after }
}

fn refused(event: Event, part: Broken) -> Row {
    Row::Refused { event, part }
}

fn after(
    ranked: &'static [u32],
    open_questions: u32,
    second: QuestionState,
    answers: u32,
    withdrawals: u32,
) -> Expected {
    Expected {
        ranked,
        open_questions,
        second,
        answers,
        withdrawals,
    }
}

fn vector(items: [i8; 3]) -> Vector {
    let [first, second, third] = items;
    Vector::of(&[i128::from(first), i128::from(second), i128::from(third)])
}

fn issue(place: u32, plus: [i8; 3], minus: [i8; 3]) -> Event {
    Event::Issue {
        desk: 1,
        place,
        plus: vector(plus),
        minus: vector(minus),
    }
}

fn commit(question: u32, side: Side, plus: [i8; 3], minus: [i8; 3], point: [i8; 3]) -> Event {
    Event::Commit {
        desk: 1,
        question,
        side,
        plus: vector(plus),
        minus: vector(minus),
        point: vector(point),
    }
}

fn close(question: u32) -> Event {
    Event::Close { desk: 1, question }
}

fn withdraw(answer: u32) -> Event {
    Event::Withdraw { desk: 1, answer }
}

fn eliminate(
    place: u32,
    verdict: Side,
    increments: [i8; 3],
    cites: &[(u32, i8)],
) -> Result<Event, Fail> {
    Ok(Event::Eliminate {
        worker: 0,
        place,
        verdict,
        combination: Combination {
            scale: 1,
            increments: vector(increments),
            answers: cites_of(cites).ok_or("no list of cites")?,
        },
    })
}

fn cites_of(items: &[(u32, i8)]) -> Option<Cites> {
    let cite = |&(answer, weight): &(u32, i8)| Cite {
        answer,
        weight: i128::from(weight),
    };
    match items {
        [first] => Cites::of(&[cite(first)]),
        [first, second] => Cites::of(&[cite(first), cite(second)]),
        _ => None,
    }
}

/// Whether the numbers of an event are in their ranges.
fn is_event(model: &Model, event: &Event) -> bool
    ensures { IsTrue result → IsEvent model.now.levels event.now }
{
    match event {
        Event::Eliminate {
            worker,
            combination,
            ..
        } => *worker <= MAX_WORKERS && is_combination(model, combination),
        Event::Issue {
            desk,
            plus,
            minus,
            ..
        } => is_desk(*desk) && is_values(model, plus) && is_values(model, minus),
        Event::Commit {
            desk,
            plus,
            minus,
            point,
            ..
        } => {
            is_desk(*desk)
                && is_values(model, plus)
                && is_values(model, minus)
                && is_values(model, point)
        }
        Event::Close { desk, .. } => is_desk(*desk),
        Event::Withdraw { desk, .. } => is_desk(*desk),
    }
}

fn is_desk(desk: u8) -> bool
    ensures { IsTrue result → IsDesk desk }
{
    desk >= 1 && desk <= MAX_DESKS
}

fn is_values(model: &Model, vector: &Vector) -> bool
    ensures { IsTrue result → IsValueVector model.now.levels vector.now }
{
    vector.len() == usize::from(model.increments())
        && vector.as_slice().iter().all(|value| *value >= 1)
}

fn is_combination(model: &Model, combination: &Combination) -> bool
    ensures len { IsTrue result → length combination.now.increments ≡ increments model.now.levels }
    ensures scale { IsTrue result → unsigned_abs combination.now.scale < CERTIFICATE_BOUND }
{
    combination.increments.len() == usize::from(model.increments())
        && combination.scale.unsigned_abs() < CERTIFICATE_BOUND
}

/// Puts the event at the end where it may follow.
fn offer(rt: &impl Abort, core: &mut Core, event: &Event) -> Result<(), Broken> {
    let model = core.model();
    assert!(rt; is_event(&model, event));
    core.allowed(event)?;
    core.apply(event);
    Ok(())
}

/// That the core says this.
fn expect(rt: &impl Abort, core: &Core, expected: &Expected) {
    let classes = core.model().class_count();
    for place in 1..=classes {
        assert_eq!(rt; core.is_ranked(place), expected.ranked.contains(&place));
    }
    assert_eq!(rt;
        core.all_ranked(),
        expected.ranked.len() == classes as usize
    );
    assert_eq!(rt; core.open_questions(), expected.open_questions);
    assert_eq!(rt; core.question(2), expected.second);
    assert_eq!(rt; core.answers().len(), expected.answers);
    assert_eq!(rt; core.withdrawals(), expected.withdrawals);
}

/// Offers the events one after the other to the empty history of three criteria with two levels.
fn run(rt: &impl Abort, alloc: Global, rows: &[Row]) -> Result<(), Fail> {
    let model = Model::new(&[2, 2, 2], 3).ok().ok_or("model")?;
    let mut core = Core::new(alloc, &model)?;
    for row in rows {
        match row {
            Row::Taken { event, after } => {
                assert_eq!(rt; offer(rt, &mut core, event), Ok(()));
                expect(rt, &core, after);
            }
            Row::Refused { event, part } => {
                assert_eq!(rt; offer(rt, &mut core, event), Err(*part));
            }
        }
    }
    Ok(())
}

/// A core has the classes of its model, each at its place.
#[test]
fn classes_and_places(rt: HostRuntime) -> Result<(), Fail> {
    let model = Model::new(&[2, 2, 2], 3).ok().ok_or("model")?;
    let core = Core::new(rt.alloc(), &model)?;
    assert!(rt; core.model() == model);
    assert_eq!(rt; model.class_count(), 6);
    for place in 1..=model.class_count() {
        let class = core.class(place);
        assert_eq!(rt; core.place(&class), Some(place));
    }
    let fourth = Pair {
        left: Tuple::of(&[2, 1, 1]),
        right: Tuple::of(&[1, 2, 2]),
    };
    let turned = Pair {
        left: fourth.right,
        right: fourth.left,
    };
    assert_eq!(rt; core.place(&fourth), Some(4));
    assert_eq!(rt; core.place(&turned), None);
    Ok(())
}

/// A withdrawal takes back an answer, the elimination that rests on it, and the close of a question, which can then be
/// answered.
#[test]
fn withdrawn_answer(rt: HostRuntime) -> Result<(), Fail> {
    let last = commit(2, Side::Left, [2, 1, 1], [2, 1, 3], [2, 1, 1]);
    let rows = [
        taken(issue(1, [2, 1, 1], [1, 2, 1]), after(&[], 1, NEVER, 0, 0)),
        taken(issue(2, [2, 1, 1], [1, 1, 2]), after(&[], 2, OPEN, 0, 0)),
        taken(issue(3, [1, 2, 1], [1, 1, 2]), after(&[], 3, OPEN, 0, 0)),
        taken(
            commit(1, Side::Left, [2, 1, 1], [1, 2, 1], [2, 1, 1]),
            after(&[1], 2, OPEN, 1, 0),
        ),
        taken(
            commit(3, Side::Left, [3, 2, 1], [3, 1, 2], [3, 2, 1]),
            after(&[1, 3], 1, OPEN, 2, 0),
        ),
        taken(
            eliminate(2, Side::Left, [0, 0, 0], &[(1, 1), (2, 1)])?,
            after(&[1, 2, 3], 1, OPEN, 2, 0),
        ),
        taken(close(2), after(&[1, 2, 3], 0, GONE, 2, 0)),
        refused(withdraw(1), Broken::Nothing),
        refused(last, Broken::Question),
        taken(withdraw(2), after(&[1], 2, OPEN, 1, 1)),
        taken(last, after(&[1, 2], 1, GONE, 2, 1)),
    ];
    run(&rt, rt.alloc(), &rows)
}

/// A withdrawal takes back an elimination, and no question.
#[test]
fn asked_and_eliminated(rt: HostRuntime) -> Result<(), Fail> {
    let model = Model::new(&[2, 2, 2], 3).ok().ok_or("model")?;
    let mut core = Core::new(rt.alloc(), &model)?;
    let rows = [
        (issue(1, [2, 1, 1], [1, 2, 1]), None),
        (
            commit(1, Side::Equal, [2, 1, 1], [1, 2, 1], [1, 1, 1]),
            None,
        ),
        (eliminate(4, Side::Right, [0, 0, 1], &[(1, -1)])?, Some(4)),
        (withdraw(1), None),
    ];
    for (event, eliminated) in rows {
        assert_eq!(rt; offer(&rt, &mut core, &event), Ok(()));
        assert_eq!(rt; core.asked(), 1);
        for place in 1..=core.model().class_count() {
            assert_eq!(rt; core.is_eliminated(place), eliminated == Some(place));
        }
    }
    Ok(())
}

/// All classes are ranked; then a withdrawal leaves the eliminations that rest only on the first answer.
#[test]
fn complete_and_back(rt: HostRuntime) -> Result<(), Fail> {
    let rows = [
        taken(issue(1, [2, 1, 1], [1, 2, 1]), after(&[], 1, NEVER, 0, 0)),
        taken(
            commit(1, Side::Equal, [2, 1, 1], [1, 2, 1], [1, 1, 1]),
            after(&[1], 0, NEVER, 1, 0),
        ),
        taken(issue(2, [2, 2, 1], [1, 1, 2]), after(&[1], 1, OPEN, 1, 0)),
        taken(
            commit(2, Side::Left, [2, 2, 1], [1, 1, 2], [2, 2, 1]),
            after(&[1, 2], 0, GONE, 2, 0),
        ),
        taken(
            eliminate(3, Side::Left, [0, 0, 0], &[(1, -1), (2, 1)])?,
            after(&[1, 2, 3], 0, GONE, 2, 0),
        ),
        taken(
            eliminate(4, Side::Right, [0, 0, 1], &[(1, -1)])?,
            after(&[1, 2, 3, 4], 0, GONE, 2, 0),
        ),
        taken(
            eliminate(5, Side::Left, [0, 0, 1], &[(1, 1)])?,
            after(&[1, 2, 3, 4, 5], 0, GONE, 2, 0),
        ),
        taken(
            eliminate(6, Side::Left, [0, 1, 0], &[(2, 1)])?,
            after(&[1, 2, 3, 4, 5, 6], 0, GONE, 2, 0),
        ),
        refused(
            eliminate(6, Side::Left, [0, 1, 0], &[(2, 1)])?,
            Broken::Ranked,
        ),
        taken(withdraw(2), after(&[1, 4, 5], 1, OPEN, 1, 1)),
    ];
    run(&rt, rt.alloc(), &rows)
}

/// Four questions may be open and not five; an event that may not follow is refused by its first part that fails.
#[test]
fn four_open_full(rt: HostRuntime) -> Result<(), Fail> {
    let rows = [
        refused(issue(7, [2, 1, 1], [1, 2, 1]), Broken::Class),
        refused(issue(2, [2, 1, 1], [1, 1, 2]), Broken::Earlier),
        refused(issue(1, [1, 2, 1], [2, 1, 1]), Broken::Vectors),
        taken(issue(1, [2, 1, 1], [1, 2, 1]), after(&[], 1, NEVER, 0, 0)),
        refused(issue(1, [2, 1, 1], [1, 2, 1]), Broken::Asked),
        refused(close(1), Broken::Unranked),
        refused(
            commit(1, Side::Left, [2, 1, 1], [1, 2, 1], [1, 2, 1]),
            Broken::Point,
        ),
        refused(
            eliminate(2, Side::Left, [0, 0, 0], &[(1, 1)])?,
            Broken::Flaw(Flaw::Cite),
        ),
        taken(issue(2, [2, 1, 1], [1, 1, 2]), after(&[], 2, OPEN, 0, 0)),
        taken(issue(3, [1, 2, 1], [1, 1, 2]), after(&[], 3, OPEN, 0, 0)),
        taken(issue(4, [3, 1, 1], [1, 1, 1]), after(&[], 4, OPEN, 0, 0)),
        refused(issue(5, [1, 1, 1], [1, 3, 1]), Broken::Full),
    ];
    run(&rt, rt.alloc(), &rows)
}
