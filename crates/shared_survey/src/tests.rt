ghost use Rattle.std.specs.Prelude.{◌≡◌, ◌≤◌, length, IfOk};
ghost use Rattle.std.specs.Thread.{IsSync};
ghost use Rattle.survey_core.specs.Legal.{IsDesk};
ghost use Rattle.shared_survey.specs.Passes.{IsPassOf, StaysPass, desk_of, pass_weight, survey_weight};

use crate::{Desk, Pass, Survey, SurveyBench};
use criteria_model::{Model, Side};
use decider::Tools;
use edges::{Gate, GatePoint, Hold, OpenGate, ScriptGate};
use eliminators::{Benches, JobEnd, job_line, worker};
use std::alloc::Global;
use std::process::Abort;
use std::sync::Wait;
use std::test::Fail;
use std::thread::{Threads, join};
use survey_core::Event;
use survey_replies::{AnswerReply, Events, NextReply, Respondent, ValuesReply, WithdrawReply};
use survey_state::State;

/// A survey, and a pass with all its weight.
fn survey_of(
    alloc: Global,
    levels: &[u32],
    degree: u32,
    passes: u32,
) -> Result<(Survey, Pass), Fail>
    requires levels { length levels.now ≤ 24 }
    requires passes { (1 ≤ passes) × (passes ≤ 64) }
    ensures { IfOk result (λ r. IsPassOf r.0 r.1 × (pass_weight r.1 ≡ passes) × (survey_weight r.0 ≡ passes)) }
{
    let model = Model::new(levels, degree).ok().ok_or("model")?;
    Ok(Survey::build(alloc, &model, passes)?)
}

/// The number of the next question, and how many events stood before it; none where no question is asked.
fn asked<R: Wait + Sync, G: Gate>(
    rt: &R,
    survey: &Survey,
    pass: &mut Pass,
    gate: &G,
) -> Option<(u32, u32)>
    requires pass { IsPassOf survey.now pass.old }
    requires desk { IsDesk (desk_of pass.old) }
    ensures { StaysPass survey.now pass.old pass.new }
{
    match survey.next(rt, pass, gate) {
        NextReply::Question { at, number, .. } => Some((at, number)),
        _ => None,
    }
}

/// The reply to an answer, left.
fn answered<R: Wait + Sync>(rt: &R, survey: &Survey, pass: &mut Pass, question: u32) -> AnswerReply
    requires pass { IsPassOf survey.now pass.old }
    requires desk { IsDesk (desk_of pass.old) }
    ensures { StaysPass survey.now pass.old pass.new }
{
    survey.answer(rt, pass, question, Side::Left)
}

/// The reply to a withdrawal.
fn taken_back<R: Wait + Sync>(
    rt: &R,
    survey: &Survey,
    pass: &mut Pass,
) -> Result<WithdrawReply, Fail>
    requires pass { IsPassOf survey.now pass.old }
    requires desk { IsDesk (desk_of pass.old) }
    ensures { StaysPass survey.now pass.old pass.new }
{
    Ok(survey.withdraw(rt, pass)?)
}

/// A desk asks; another answers and takes the answer back; the first sees all this.
#[test]
fn two_passes(rt: HostRuntime) -> Result<(), Fail> {
    let (survey, mut whole) = survey_of(rt.alloc(), &[2, 2, 2], 3, 3)?;
    let mut first = survey.pass(rt.alloc(), &mut whole, 1)?;
    let mut second = survey.pass(rt.alloc(), &mut whole, 2)?;
    assert!(rt; asked(&rt, &survey, &mut first, &OpenGate) == Some((0, 1)));
    let accepted = AnswerReply::Accepted { at: 1, question: 1 };
    assert!(rt; answered(&rt, &survey, &mut second, 1) == accepted);
    let closed = AnswerReply::Closed { at: 2, question: 1 };
    assert!(rt; answered(&rt, &survey, &mut first, 1) == closed);
    assert!(rt; first.front().length == 2);
    let withdrawn = WithdrawReply::Withdrawn {
        at: 2,
        answer: 1,
        question: 1,
    };
    assert!(rt; taken_back(&rt, &survey, &mut first)? == withdrawn);
    assert!(rt; first.desk() == 1);
    assert!(rt; second.front().length == 2);
    survey.join(&mut whole, first);
    survey.join(&mut whole, second);
    assert!(rt; whole.front().length == 3);
    let state = survey.close(whole);
    assert!(rt; state.length() == 3);
    Ok(())
}

/// The side by which values 1, 2 and 4 rank a class of three criteria of two levels.
fn side_of(place: u32) -> Side {
    if place == 5 { Side::Left } else { Side::Right }
}

/// Answers the question that the event at the place asks, if it asks one, which is then this number and one more. Gives
/// the number of questions so far.
fn answered_at<R: Respondent>(desk: &mut R, place: u32, questions: u32) -> u32
    requires waits { R.can_wait }
    requires low { 1 ≤ place }
    requires high { place ≤ length (R.seen desk.old).journal }
    ensures same { R.about desk.new ≡ R.about desk.old }
    ensures longer { length (R.seen desk.old).journal ≤ length (R.seen desk.new).journal }
{
    match desk.event(place) {
        Event::Issue { place: class, .. } => {
            let question = questions.saturating_add(1);
            desk.answer(question, side_of(class));
            question
        }
        _ => questions,
    }
}

/// Answers all questions that were seen.
fn answer_all<R: Respondent>(desk: &mut R)
    requires { R.can_wait }
    ensures { R.about desk.new ≡ R.about desk.old }
{
    let length = desk.length();
    let mut questions = 0u32;
    for place in 0..length {
        questions = answered_at(desk, place + 1, questions);
    }
}

/// Asks, answers what was asked, and takes an answer back in the second round unless nothing was left. True where nothing is left to ask.
fn goes_on<R: Respondent>(desk: &mut R, round: u32) -> bool
    requires { R.can_wait }
    ensures { R.about desk.new ≡ R.about desk.old }
{
    let complete = is_complete(desk);
    answer_all(desk);
    if round == 1 && !complete {
        let _ = desk.withdraw();
    }
    complete
}

fn is_complete<R: Respondent>(desk: &mut R) -> bool
    requires { R.can_wait }
    ensures { R.about desk.new ≡ R.about desk.old }
{
    match desk.next() {
        NextReply::Complete { .. } => true,
        _ => false,
    }
}

/// Asks and answers until nothing is left to ask.
fn work<R: Respondent>(desk: &mut R)
    requires { R.can_wait }
    ensures { R.about desk.new ≡ R.about desk.old }
{
    for round in 0..100u32 {
        if goes_on(desk, round) {
            return;
        }
    }
}

/// The same by a pass.
fn work_by<'a, R: Wait + Sync, G: Gate>(
    rt: &'a R,
    survey: &'a Survey,
    pass: &'a mut Pass,
    gate: &'a G,
)
    requires pass { IsPassOf survey.now pass.old }
    requires desk { IsDesk (desk_of pass.old) }
    ensures { StaysPass survey.now pass.old pass.new }
{
    let mut desk = Desk::lend(rt, survey, pass, None, 0, gate);
    work(&mut desk);
}

fn worked<R: Wait + Sync>(rt: &R, survey: &Survey, mut pass: Pass) -> Pass
    requires pass { IsPassOf survey.now pass }
    requires desk { IsDesk (desk_of pass) }
    ensures { StaysPass survey.now pass result }
{
    work_by(rt, survey, &mut pass, &OpenGate);
    pass
}

/// Whether nothing is left to ask, and there are values.
fn has_values<R: Wait + Sync>(rt: &R, survey: &Survey, pass: &mut Pass) -> bool
    requires pass { IsPassOf survey.now pass.old }
    requires desk { IsDesk (desk_of pass.old) }
    ensures { StaysPass survey.now pass.old pass.new }
{
    match survey.values(rt, pass) {
        ValuesReply::Values { .. } => true,
        ValuesReply::Incomplete { .. } => false,
    }
}

/// Two desks work at once.
fn both_worked<R: Threads + Wait + Sync>(
    rt: &R,
    survey: &Survey,
    first: Pass,
    second: Pass,
) -> (Pass, Pass)
    requires first { IsPassOf survey.now first × IsDesk (desk_of first) × (pass_weight first ≡ 1) }
    requires second { IsPassOf survey.now second × IsDesk (desk_of second) × (pass_weight second ≡ 1) }
    ensures first { IsPassOf survey.now result.0 × IsDesk (desk_of result.0) × (pass_weight result.0 ≡ 1) }
    ensures second { IsPassOf survey.now result.1 × IsDesk (desk_of result.1) × (pass_weight result.1 ≡ 1) }
{
    join(
        rt,
        || -> Pass
            requires { IsPassOf survey.now first × IsDesk (desk_of first) × (pass_weight first ≡ 1) }
            ensures { IsPassOf survey.entry.now result × IsDesk (desk_of result) × (pass_weight result ≡ 1) }
        { worked(rt, survey, first) },
        || -> Pass
            requires { IsPassOf survey.now second × IsDesk (desk_of second) × (pass_weight second ≡ 1) }
            ensures { IsPassOf survey.entry.now result × IsDesk (desk_of result) × (pass_weight result ≡ 1) }
        { worked(rt, survey, second) },
    )
}

/// A survey that two desks answer at once, and what is left is answered by the first. The journal is legal by its type.
fn answered_by_two<R: Threads + Wait + Sync>(rt: &R, alloc: Global) -> Result<(State, bool), Fail> {
    let (survey, mut whole) = survey_of(alloc, &[2, 2, 2], 3, 3)?;
    let first = survey.pass(alloc, &mut whole, 1)?;
    let second = survey.pass(alloc, &mut whole, 2)?;
    let (first, second) = both_worked(rt, &survey, first, second);
    survey.join(&mut whole, second);
    let mut first = worked(rt, &survey, first);
    let complete = has_values(rt, &survey, &mut first);
    survey.join(&mut whole, first);
    Ok((survey.close(whole), complete))
}

#[test]
fn two_desks_at_once(rt: HostRuntime) -> Result<(), Fail> {
    let (state, complete) = answered_by_two(&rt, rt.alloc())?;
    assert!(rt; complete);
    assert!(rt; state.core().all_ranked());
    Ok(())
}

/// Works at the one survey of a job line until it is told to stop, and gives the pass back. Does nothing where there is no memory.
fn eliminates<'a, R: Wait + Sync, G: Gate>(
    rt: &'a R,
    alloc: Global,
    survey: &'a Survey,
    pass: Pass,
    mut end: JobEnd,
    gate: &G,
) -> Pass
    requires pass { IsPassOf survey.now pass × (pass_weight pass ≡ 1) }
    requires surveys { end.surveys ≡ 1 }
    ensures { IsPassOf survey.now result × (pass_weight result ≡ 1) }
{
    let model = survey.classes.model();
    let Ok(mut tools) = Tools::reserve(alloc, &model) else {
        return pass;
    };
    let Ok(mut benches) = Benches::reserve(alloc, 1) else {
        return pass;
    };
    benches.push(SurveyBench::hold(rt, survey, pass, 1));
    worker(rt, &mut benches, 1, &model, &mut tools, &mut end, gate);
    let Some(bench) = benches.pop() else {
        unreachable!()
    };
    bench.into_pass()
}

/// Asks a question and answers it, left.
fn ask_and_answer<R: Respondent>(desk: &mut R)
    requires { R.can_wait }
    ensures { R.about desk.new ≡ R.about desk.old }
{
    is_complete(desk);
    desk.answer(1, Side::Left);
}

/// The same by a pass that sends jobs.
fn ask_and_answer_by<'a, R: Wait + Sync, G: Gate>(
    rt: &'a R,
    survey: &'a Survey,
    pass: &'a mut Pass,
    end: &'a JobEnd,
    gate: &'a G,
)
    requires pass { IsPassOf survey.now pass.old }
    requires desk { IsDesk (desk_of pass.old) }
    requires surveys { end.now.surveys ≡ 1 }
    ensures { StaysPass survey.now pass.old pass.new }
{
    let mut desk = Desk::lend(rt, survey, pass, Some(end), 1, gate);
    ask_and_answer(&mut desk);
}

/// Desk 1 asks and answers.
fn answered_once<R: Wait + Sync, G: Gate>(
    rt: &R,
    alloc: Global,
    survey: &Survey,
    whole: &mut Pass,
    end: &JobEnd,
    gate: &G,
) -> Result<(), Fail>
    requires pass { IsPassOf survey.now whole.old × (2 ≤ pass_weight whole.old) }
    requires surveys { end.now.surveys ≡ 1 }
    ensures { IfOk result (λ _. IsPassOf survey.now whole.new × (pass_weight whole.new ≡ pass_weight whole.old)) }
{
    let mut pass = survey.pass(alloc, whole, 1)?;
    ask_and_answer_by(rt, survey, &mut pass, end, gate);
    survey.join(whole, pass);
    Ok(())
}

/// Asks once, and then tells the eliminator to stop.
fn asks_once<R: Wait + Sync, G: Gate>(
    rt: &R,
    survey: &Survey,
    mut pass: Pass,
    end: JobEnd,
    gate: &G,
) -> Pass
    requires pass { IsPassOf survey.now pass }
    requires desk { IsDesk (desk_of pass) }
    ensures { StaysPass survey.now pass result }
{
    survey.next(rt, &mut pass, gate);
    end.stop(rt);
    pass
}

/// Desk 1 asks and answers, and then this desk asks beside an eliminator. What the survey came to.
fn asked_beside_worker<R: Threads + Wait + Sync, G: Gate + Sync>(
    rt: &R,
    alloc: Global,
    gate: &G,
    desk: u8,
) -> Result<State, Fail>
    requires { IsDesk desk }
{
    let (survey, mut whole) = survey_of(alloc, &[3, 2], 2, 3)?;
    let end = job_line(alloc, 1)?;
    let other = end.another(alloc)?;
    answered_once(rt, alloc, &survey, &mut whole, &end, gate)?;
    let next = survey.pass(alloc, &mut whole, desk)?;
    let bench = survey.worker_pass(&mut whole);
    let lent = &survey;
    let (next, bench) = join(
        rt,
        || -> Pass
            requires { IsSync R.row × IsSync G.row × IsPassOf lent.now next × IsDesk (desk_of next) × (pass_weight next ≡ 1) }
            ensures { IsPassOf lent.entry.now result × (pass_weight result ≡ 1) }
        { asks_once(rt, lent, next, end, gate) },
        || -> Pass
            requires { IsSync R.row × IsSync G.row × IsPassOf lent.now bench × (pass_weight bench ≡ 1) × (other.surveys ≡ 1) }
            ensures { IsPassOf lent.entry.now result × (pass_weight result ≡ 1) }
        { eliminates(rt, alloc, lent, bench, other, gate) },
    );
    survey.join(&mut whole, next);
    survey.join(&mut whole, bench);
    Ok(survey.close(whole))
}

/// The question on class 1 and its answer, the elimination of class 2, and the question on class 3 are all.
fn ends_with(rt: &impl Abort, state: &State, worker: u8, desk: u8) {
    assert!(rt; state.length() == 4);
    let eliminates = match state.event(3) {
        Event::Eliminate { worker, place, .. } => Some((worker, place)),
        _ => None,
    };
    assert!(rt; eliminates == Some((worker, 2)));
    let asks = match state.event(4) {
        Event::Issue { desk, place, .. } => Some((desk, place)),
        _ => None,
    };
    assert!(rt; asks == Some((desk, 3)));
}

/// The second question waits until the class that the answer ranks was handed in.
#[test]
fn session_waits_for_hand_in(rt: HostRuntime) -> Result<(), Fail> {
    let begins = GatePoint::NextBegins { desk: 1 };
    let handed_in = GatePoint::HandedIn {
        worker: 1,
        place: 2,
        eliminated: true,
    };
    let holds = [(begins, begins), (begins, handed_in)].map(|(at, until)| Hold { at, until });
    let gate = ScriptGate::new(rt.alloc(), &holds)?;
    let state = asked_beside_worker(&rt, rt.alloc(), &gate, 1)?;
    assert!(rt; !gate.missed());
    ends_with(&rt, &state, 1, 1);
    Ok(())
}

/// A desk gets its question while an eliminator is about to solve, which holds no turn.
#[test]
fn solve_outside_turn(rt: HostRuntime) -> Result<(), Fail> {
    let taken = GatePoint::JobTaken {
        worker: 1,
        place: 2,
    };
    let begins = GatePoint::NextBegins { desk: 2 };
    let answered = GatePoint::NextAnswered { desk: 2 };
    let holds = [(begins, taken), (taken, answered)].map(|(at, until)| Hold { at, until });
    let gate = ScriptGate::new(rt.alloc(), &holds)?;
    let state = asked_beside_worker(&rt, rt.alloc(), &gate, 2)?;
    assert!(rt; !gate.missed());
    ends_with(&rt, &state, 0, 2);
    Ok(())
}

/// A survey that four desks answer at once, and what is left is answered by the first.
fn answered_by_four<R: Threads + Wait + Sync>(
    rt: &R,
    alloc: Global,
) -> Result<(State, bool), Fail> {
    let (survey, mut whole) = survey_of(alloc, &[2, 2, 2], 3, 5)?;
    let a = survey.pass(alloc, &mut whole, 1)?;
    let b = survey.pass(alloc, &mut whole, 2)?;
    let c = survey.pass(alloc, &mut whole, 3)?;
    let d = survey.pass(alloc, &mut whole, 4)?;
    let lent = &survey;
    let ((a, b), (c, d)) = join(
        rt,
        || -> (Pass, Pass)
            requires { IsSync R.row × IsPassOf lent.now a × IsDesk (desk_of a) × (pass_weight a ≡ 1) × IsPassOf lent.now b × IsDesk (desk_of b) × (pass_weight b ≡ 1) }
            ensures first { IsPassOf lent.entry.now result.0 × IsDesk (desk_of result.0) × (pass_weight result.0 ≡ 1) }
            ensures second { IsPassOf lent.entry.now result.1 × (pass_weight result.1 ≡ 1) }
        { both_worked(rt, lent, a, b) },
        || -> (Pass, Pass)
            requires { IsSync R.row × IsPassOf lent.now c × IsDesk (desk_of c) × (pass_weight c ≡ 1) × IsPassOf lent.now d × IsDesk (desk_of d) × (pass_weight d ≡ 1) }
            ensures first { IsPassOf lent.entry.now result.0 × (pass_weight result.0 ≡ 1) }
            ensures second { IsPassOf lent.entry.now result.1 × (pass_weight result.1 ≡ 1) }
        { both_worked(rt, lent, c, d) },
    );
    survey.join(&mut whole, b);
    survey.join(&mut whole, c);
    survey.join(&mut whole, d);
    let mut a = worked(rt, &survey, a);
    let complete = has_values(rt, &survey, &mut a);
    survey.join(&mut whole, a);
    Ok((survey.close(whole), complete))
}

#[test]
fn four_desks_at_once(rt: HostRuntime) -> Result<(), Fail> {
    let (state, complete) = answered_by_four(&rt, rt.alloc())?;
    assert!(rt; complete);
    assert!(rt; state.core().all_ranked());
    Ok(())
}
