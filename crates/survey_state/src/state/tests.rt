ghost use Rattle.std.specs.Prelude.{IsTrue};
ghost use Rattle.criteria_model.specs.Worth.{IsValueVector};
ghost use Rattle.survey_core.specs.Legal.{IsEvent, IsPlace};
ghost use Rattle.survey_state.specs.States.{RankOppositely};

use super::*;
use criteria_model::Side;
use decider::Tools;
use std::process::Abort;
use std::test::Fail;
use survey_core::Broken;
use survey_replies::Events;
use witness_check::meets_from;

fn vector(items: [i8; 3]) -> Vector {
    let [first, second, third] = items;
    Vector::of(&[i128::from(first), i128::from(second), i128::from(third)])
}

fn issue(place: u32, plus: [i8; 3], minus: [i8; 3]) -> Event {
    Event::Issue {
        desk: 1,
        place,
        plus: vector(plus),
        minus: vector(minus),
    }
}

fn commit(question: u32, side: Side, plus: [i8; 3], minus: [i8; 3], point: [i8; 3]) -> Event {
    Event::Commit {
        desk: 1,
        question,
        side,
        plus: vector(plus),
        minus: vector(minus),
        point: vector(point),
    }
}

fn withdraw(answer: u32) -> Event {
    Event::Withdraw { desk: 1, answer }
}

/// Whether the event is an issue, a commit or a withdrawal of desk 1, with value vectors.
fn is_event(model: &Model, event: &Event) -> bool
    ensures { IsTrue result → IsEvent model.now.levels event.now }
{
    match event {
        Event::Issue {
            desk,
            plus,
            minus,
            ..
        } => *desk == 1 && is_values(model, plus) && is_values(model, minus),
        Event::Commit {
            desk,
            plus,
            minus,
            point,
            ..
        } => {
            *desk == 1
                && is_values(model, plus)
                && is_values(model, minus)
                && is_values(model, point)
        }
        Event::Withdraw { desk, .. } => *desk == 1,
        _ => false,
    }
}

fn is_values(model: &Model, vector: &Vector) -> bool
    ensures { IsTrue result → IsValueVector model.now.levels vector.now }
{
    vector.len() == usize::from(model.increments())
        && vector.as_slice().iter().all(|value| *value >= 1)
}

/// The event at a place, through the trait.
fn event_at<E: Events>(journal: &mut E, place: u32) -> Option<Event>
    requires { E.can_wait }
{
    if place == 0 || place > journal.length() {
        return None;
    }
    Some(journal.event(place))
}

/// Offers an event, with memory for a withdrawal.
fn offer(rt: &impl Abort, state: &mut State, event: Event) -> Result<Offer, Fail> {
    let model = state.core().model();
    state.make_room()?;
    assert!(rt; is_event(&model, &event));
    Ok(state.offer(event))
}

/// What is at hand of a state.
#[derive(Clone, Copy, PartialEq)]
struct AtHand {
    length: u32,
    version: u32,
    point: Vector,
}

fn at_hand(state: &State) -> AtHand {
    AtHand {
        length: state.length(),
        version: state.version(),
        point: state.point(),
    }
}

/// Whether the snapshot, brought to the state's answers, has as many of them, and the version.
fn is_copied(state: &State, snapshot: &mut Snapshot) -> bool {
    state.snapshot_into(snapshot) == 0
        && snapshot.version == state.version()
        && snapshot.answers.len() == state.core().answers().len()
}

/// An answer is given and taken back: point, version and snapshot follow, and an event that may not follow changes nothing.
#[test]
fn answer_and_withdrawal(rt: HostRuntime) -> Result<(), Fail> {
    let model = Model::new(&[2, 2, 2], 3).ok().ok_or("model")?;
    let mut state = State::new(rt.alloc(), &model)?;
    let mut tools = Tools::reserve(rt.alloc(), &model)?;
    let rows = [
        (
            issue(2, [2, 1, 1], [1, 1, 2]),
            Offer::Stale(Broken::Earlier),
            0,
            0,
            [1, 1, 1],
        ),
        (issue(1, [2, 1, 1], [1, 2, 1]), Offer::Done, 1, 0, [1, 1, 1]),
        (
            commit(1, Side::Left, [2, 1, 1], [1, 2, 1], [2, 1, 1]),
            Offer::Done,
            2,
            1,
            [2, 1, 1],
        ),
        (
            commit(1, Side::Left, [2, 1, 1], [1, 2, 1], [2, 1, 1]),
            Offer::Stale(Broken::Question),
            2,
            1,
            [2, 1, 1],
        ),
        (withdraw(1), Offer::Done, 3, 2, [1, 1, 1]),
        (withdraw(1), Offer::Stale(Broken::Nothing), 3, 2, [1, 1, 1]),
        (
            commit(1, Side::Right, [2, 1, 1], [1, 2, 1], [1, 2, 1]),
            Offer::Done,
            4,
            3,
            [1, 2, 1],
        ),
    ];
    for (event, offered, length, version, point) in rows {
        assert_eq!(rt; offer(&rt, &mut state, event)?, offered);
        let point = vector(point);
        assert!(rt;
            at_hand(&state)
                == AtHand {
                    length,
                    version,
                    point
                }
        );
        assert!(rt; is_copied(&state, &mut tools.snapshot));
    }
    assert!(rt; event_at(&mut state, 3) == Some(withdraw(1)));
    assert!(rt; event_at(&mut state, 5).is_none());
    Ok(())
}

/// With ample memory there is room for a withdrawal.
#[test]
fn withdraw_with_memory(rt: HostRuntime) -> Result<(), Fail> {
    let model = Model::new(&[2, 2, 2], 3).ok().ok_or("model")?;
    let mut state = State::new(rt.alloc(), &model)?;
    assert!(rt; state.make_room().is_ok());
    Ok(())
}

/// Whether the class's left side is worth more by the first value vector, and less by the second.
fn rank_oppositely(state: &State, place: u32, plus: &Vector, minus: &Vector) -> bool
    requires { IsPlace state.now.listed place }
    ensures { IsTrue result → RankOppositely state.now.listed place plus.now minus.now }
{
    let model = state.core().model();
    let pair = state.core().class(place);
    is_values(&model, plus)
        && is_values(&model, minus)
        && model.ranking(plus, &pair) == Side::Left
        && model.ranking(minus, &pair) == Side::Right
}

/// Keeps vectors of a class.
fn keep(rt: &impl Abort, state: &mut State, place: u32, plus: Vector, minus: Vector) {
    let count = state.core().model().class_count();
    assert!(rt; 1 <= place && place <= count);
    assert!(rt; rank_oppositely(state, place, &plus, &minus));
    state.keep(place, plus, minus);
}

/// Whether each of the vectors that are kept for the class meets the answers that it isn't known to meet.
fn kept_meet(state: &State, place: u32) -> Option<(bool, bool)> {
    let model = state.core().model();
    if place == 0 || place > model.class_count() {
        return None;
    }
    let Kept { plus, minus, met } = state.kept(place)?;
    let answers = state.core().answers();
    let plus_meets = meets_from(&model, answers, met, &plus);
    let minus_meets = meets_from(&model, answers, met, &minus);
    Some((plus_meets, minus_meets))
}

/// Vectors that are kept for a class are there after another class is answered; one of them meets the new answer.
#[test]
fn kept_vectors(rt: HostRuntime) -> Result<(), Fail> {
    let model = Model::new(&[2, 2, 2], 3).ok().ok_or("model")?;
    let mut state = State::new(rt.alloc(), &model)?;
    keep(&rt, &mut state, 1, vector([2, 1, 1]), vector([1, 2, 1]));
    for event in [
        issue(1, [2, 1, 1], [1, 2, 1]),
        issue(2, [2, 1, 1], [1, 1, 2]),
        commit(2, Side::Left, [2, 1, 1], [1, 1, 2], [2, 1, 1]),
    ] {
        assert_eq!(rt; offer(&rt, &mut state, event)?, Offer::Done);
    }
    assert!(rt; kept_meet(&state, 1) == Some((true, false)));
    assert!(rt; kept_meet(&state, 2).is_none());
    Ok(())
}
