//! Work over a state without a lock, jobs that went stale, and what comes by the job line.
ghost use Rattle.std.specs.Prelude.{◌≡◌, ◌≤◌, length, All, IfOk, IsTrue, IsFalse};
ghost use Rattle.criteria_model.specs.Worth.{IsValueVector};
ghost use Rattle.decider.specs.Reserved.{IsReserved};
ghost use Rattle.survey_core.specs.Kinds.{is_withdraw};
ghost use Rattle.survey_core.specs.Legal.{IsEvent};

use super::*;
use crate::tests::state_bench::{StateBench, WORKER};
use criteria_model::{Model, Side, Vector};
use decider::Tools;
use edges::{GatePoint, Hold, OpenGate, ScriptGate};
use std::alloc::Global;
use std::process::Abort;
use std::sync::Wait;
use std::test::Fail;
use std::thread::{Threads, join};
use survey_core::{Broken, Event};
use survey_state::{Offer, State};

mod state_bench;

/// Three criteria of two levels, with classes 2,1,0/1,2,0 and 2,0,1/1,0,2 and 0,2,1/0,1,2 and 2,1,1/1,2,2 and 2,1,2/1,2,1 and 2,2,1/1,1,2.
fn three_of_two() -> Result<Model, Fail> {
    Ok(Model::new(&[2, 2, 2], 3).ok().ok_or("model")?)
}

fn vector(items: [i8; 3]) -> Vector {
    let [first, second, third] = items;
    Vector::of(&[i128::from(first), i128::from(second), i128::from(third)])
}

/// Class 1 is asked.
fn first_issue() -> Event {
    Event::Issue {
        desk: 1,
        place: 1,
        plus: vector([2, 1, 1]),
        minus: vector([1, 2, 1]),
    }
}

/// It is answered left.
fn first_commit() -> Event {
    Event::Commit {
        desk: 1,
        question: 1,
        side: Side::Left,
        plus: vector([2, 1, 1]),
        minus: vector([1, 2, 1]),
        point: vector([2, 1, 1]),
    }
}

/// Whether the event is an issue or a commit of desk 1, with value vectors.
fn is_event(model: &Model, event: &Event) -> bool
    ensures event { IsTrue result → IsEvent model.now.levels event.now }
    ensures kind { IsTrue result → IsFalse (is_withdraw event.now) }
{
    match event {
        Event::Issue {
            desk,
            plus,
            minus,
            ..
        } => *desk == 1 && is_values(model, plus) && is_values(model, minus),
        Event::Commit {
            desk,
            plus,
            minus,
            point,
            ..
        } => {
            *desk == 1
                && is_values(model, plus)
                && is_values(model, minus)
                && is_values(model, point)
        }
        _ => false,
    }
}

fn is_values(model: &Model, vector: &Vector) -> bool
    ensures { IsTrue result → IsValueVector model.now.levels vector.now }
{
    vector.len() == usize::from(model.increments())
        && vector.as_slice().iter().all(|value| *value >= 1)
}

/// Puts an event at the end.
fn offered(rt: &impl Abort, state: &mut State, event: Event)
    ensures { state.new.listed ≡ state.old.listed }
{
    let model = state.core().model();
    assert!(rt; is_event(&model, &event));
    assert!(rt; matches!(state.offer(event), Offer::Done));
}

/// A state in which class 1 was answered left: so class 5 is ranked left, and 2, 3, 4 and 6 are open.
fn answered_once(rt: &impl Abort, alloc: Global, model: &Model) -> Result<State, Fail>
    ensures { IfOk result (λ state. state.listed.criteria ≡ model.now) }
{
    let mut state = State::new(alloc, model)?;
    offered(rt, &mut state, first_issue());
    offered(rt, &mut state, first_commit());
    Ok(state)
}

fn taken(place: u32) -> Hold {
    let point = GatePoint::JobTaken {
        worker: WORKER,
        place,
    };
    Hold {
        at: point,
        until: point,
    }
}

fn handed_in(place: u32, eliminated: bool) -> Hold {
    let point = GatePoint::HandedIn {
        worker: WORKER,
        place,
        eliminated,
    };
    Hold {
        at: point,
        until: point,
    }
}

/// Each class that no event ranks is a job once. The gate's holds are used, so each was come to.
#[test]
fn five_jobs_until_idle(rt: HostRuntime) -> Result<(), Fail> {
    let model = three_of_two()?;
    let mut bench = StateBench::new(answered_once(&rt, rt.alloc(), &model)?);
    let mut tools = Tools::reserve(rt.alloc(), &model)?;
    let holds = [taken(2), handed_in(2, false), taken(5), handed_in(5, true)];
    let gate = ScriptGate::new(rt.alloc(), &holds)?;
    let tally = work_until_idle(&rt, &mut bench, WORKER, &model, &mut tools, &gate);
    let expected = Tally {
        recorded: 1,
        kept: 4,
        stale: 0,
    };
    assert!(rt; tally == expected, "{tally:?}");
    assert!(rt; !gate.missed());
    assert!(rt; bench.taken == 5 && bench.handed_in == 5 && bench.none_left == 1);
    assert!(rt; bench.state.length() == 3);
    Ok(())
}

/// The first job of the state, decided on its answers, and handed in after the event.
fn late_answer(
    rt: &impl Abort,
    state: &mut State,
    tools: &mut Tools,
    model: &Model,
    event: Event,
) -> Result<HandIn, Fail>
    requires model { model.now ≡ state.old.listed.criteria }
    requires reserved { IsReserved model.now tools.old }
{
    let job = take_from(state, &mut tools.snapshot).ok_or("a job")?;
    let decision = tools.decide(model, &job.pair);
    offered(rt, state, event);
    Ok(hand_in_to(state, WORKER, job, &tools.snapshot, decision))
}

/// The vectors of class 1 don't meet an answer on it that came since.
#[test]
fn vectors_before_an_answer_are_stale(rt: HostRuntime) -> Result<(), Fail> {
    let model = three_of_two()?;
    let mut state = State::new(rt.alloc(), &model)?;
    let mut tools = Tools::reserve(rt.alloc(), &model)?;
    offered(&rt, &mut state, first_issue());
    let answer = late_answer(&rt, &mut state, &mut tools, &model, first_commit())?;
    assert!(rt; answer == HandIn::Stale(Broken::Vectors), "{answer:?}");
    assert!(rt; state.length() == 2);
    Ok(())
}

/// A list of benches is filled up to its memory, and emptied from its end.
#[test]
fn benches_come_back(rt: HostRuntime) -> Result<(), Fail> {
    let model = three_of_two()?;
    let mut benches = Benches::reserve(rt.alloc(), 1)?;
    benches.push(StateBench::new(State::new(rt.alloc(), &model)?));
    assert!(rt; benches.pop().is_some());
    assert!(rt; benches.pop().is_none());
    Ok(())
}

/// Benches over states in which class 1 was answered, with a job line for them.
fn three_benches(rt: &impl Abort, alloc: Global, model: &Model) -> Result<Benches<StateBench>, Fail>
    ensures many { IfOk result (λ benches. length benches.list.items ≡ 3) }
    ensures models { IfOk result (λ benches. All (λ bench. bench.state.listed.criteria ≡ model.now) benches.list.items) }
{
    let mut benches = Benches::reserve(alloc, 3)?;
    benches.push(StateBench::new(answered_once(rt, alloc, model)?));
    benches.push(StateBench::new(answered_once(rt, alloc, model)?));
    benches.push(StateBench::new(answered_once(rt, alloc, model)?));
    Ok(benches)
}

/// A worker works where it is sent to, and what another end sends comes, once for a survey that was sent twice; after the stop
/// nothing is taken.
#[test]
fn work_until_stopped(rt: HostRuntime) -> Result<(), Fail> {
    let model = three_of_two()?;
    let mut benches = three_benches(&rt, rt.alloc(), &model)?;
    let mut tools = Tools::reserve(rt.alloc(), &model)?;
    let mut jobs = job_line(rt.alloc(), 3)?;
    let other = jobs.another(rt.alloc())?;
    other.send(&rt, 3);
    other.send(&rt, 1);
    other.send(&rt, 3);
    other.stop(&rt);
    other.send(&rt, 2);
    worker(
        &rt,
        &mut benches,
        WORKER,
        &model,
        &mut tools,
        &mut jobs,
        &OpenGate,
    );
    let expected = [(5, 1), (0, 0), (5, 1)];
    for (taken, none_left) in expected.into_iter().rev() {
        let bench = benches.pop().ok_or("a bench")?;
        assert!(rt; (bench.taken, bench.none_left) == (taken, none_left));
    }
    assert!(rt; jobs.next(&rt) == Some(2));
    Ok(())
}

/// More surveys than jobs may wait.
const MANY: u32 = 2048;

/// A survey that was sent many times is taken once, nobody waits for room, and it can be sent again then.
#[test]
fn one_job_of_a_survey_waits(rt: HostRuntime) -> Result<(), Fail> {
    let mut jobs = job_line(rt.alloc(), 2)?;
    let other = jobs.another(rt.alloc())?;
    for _ in 0..MANY {
        other.send(&rt, 2);
    }
    assert!(rt; jobs.next(&rt) == Some(2));
    jobs.send(&rt, 1);
    other.send(&rt, 2);
    jobs.send(&rt, 2);
    jobs.stop(&rt);
    assert!(rt; jobs.next(&rt) == Some(1));
    assert!(rt; jobs.next(&rt) == Some(2));
    assert!(rt; jobs.next(&rt).is_none());
    Ok(())
}

/// Sends a job of each survey, more than may wait, and a stop.
fn send_many<R: Wait>(rt: &R, jobs: &JobEnd)
    requires { MANY ≤ jobs.now.surveys }
{
    for survey in 1..=MANY {
        jobs.send(rt, survey);
    }
    jobs.stop(rt);
}

/// The number of jobs up to a stop.
fn count_jobs<R: Wait>(rt: &R, jobs: &mut JobEnd) -> usize {
    let mut count: usize = 0;
    for _ in rt.forever() {
        if jobs.next(rt).is_none() {
            return count;
        }
        count = count.saturating_add(1);
    }
    unreachable!()
}

/// The jobs that come through a line that is full at times.
fn jobs_through_full_line<R: Threads + Wait + Sync>(rt: &R, alloc: Global) -> Result<usize, Fail> {
    let mut jobs = job_line(alloc, MANY)?;
    let other = jobs.another(alloc)?;
    let sender = &other;
    let taker = &mut jobs;
    let (_, count) = join(rt, || send_many(rt, sender), || count_jobs(rt, taker));
    Ok(count)
}

#[test]
fn full_line_waits(rt: HostRuntime) -> Result<(), Fail> {
    let count = jobs_through_full_line(&rt, rt.alloc())?;
    assert!(rt; count == MANY as usize && count > MAX_JOBS, "{count}");
    Ok(())
}
