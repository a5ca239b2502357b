//! A survey at which desks and eliminators work at once.
ghost use Rattle.std.specs.Prelude.{◌+◌, IfOk};
ghost use Rattle.shared_survey.specs.Passes.{survey_listed};
ghost use Rattle.desks_bench.specs.Runs.{HasWeight, IsOf, IsDeskPass};

use crate::desk_work::{Course, Person};
use crate::hand_ins::HandIns;
use crate::leftovers::finish;
use crate::passes::{add_eliminators, desk_duties, join_all};
use crate::plan::Plan;
use crate::threads::{Office, work_at_once};
use crate::uneven_gate::UnevenGate;
use edges::OpenGate;
use eliminators::job_line;
use shared_survey::{Desk, Pass, Survey};
use std::alloc::{AllocError as NoMemory, Global};
use std::sync::Wait;
use std::sync::atomic::AtomicU64;
use std::thread::Threads;
use std::time::Clock;
use survey_state::State;

/// What came of a survey.
#[derive(Drop)]
pub struct Outcome {
    pub state: State,
    pub course: Course,
    pub hand_ins: HandIns,
    /// Nothing was left to ask.
    pub is_finished: bool,
}

/// Runs a survey: desks and eliminators work at once, then what is left is answered.
pub fn run_survey<R: Threads + Wait + Sync + Clock>(
    rt: &R,
    alloc: Global,
    person: &Person,
    plan: &Plan,
) -> Result<Outcome, NoMemory>
    ensures { IfOk result (λ outcome. IsOf person.now.model.now outcome.state.listed) }
{
    let passes = u32::from(plan.desks) + u32::from(plan.eliminators) + 2;
    let (survey, mut whole) = Survey::build(alloc, person.model, passes)?;
    let mut last = survey.pass(alloc, &mut whole, 1)?;
    let (course, hand_ins) = work_beside(rt, alloc, &survey, &mut whole, person, plan)?;
    let is_finished = finish_by(rt, &survey, &mut last, person);
    survey.join(&mut whole, last);
    let state = survey.close(whole);
    Ok(Outcome {
        state,
        course,
        hand_ins,
        is_finished,
    })
}

/// Desks and eliminators work at once, by passes that are split off and joined again.
fn work_beside<R: Threads + Wait + Sync + Clock>(
    rt: &R,
    alloc: Global,
    survey: &Survey,
    whole: &mut Pass,
    person: &Person,
    plan: &Plan,
) -> Result<(Course, HandIns), NoMemory>
    requires weight { HasWeight survey.now whole.old (plan.now.desks + plan.now.eliminators + 1) }
    requires model { IsOf person.now.model.now (survey_listed survey.now) }
    ensures weight { IfOk result (λ _. HasWeight survey.now whole.new (plan.now.desks + plan.now.eliminators + 1)) }
{
    let line = job_line(alloc, 1)?;
    let mut duties = desk_duties(alloc, survey, whole, person.model, plan)?;
    add_eliminators(alloc, survey, whole, person.model, &line, plan, &mut duties)?;
    let gate = UnevenGate::new(plan.seed, plan.looks);
    let office = Office {
        person: *person,
        habits: plan.habits,
        line: &line,
        eliminators: plan.eliminators,
        gate: &gate,
        desks_left: AtomicU64::new(u64::from(plan.desks)),
    };
    let done = work_at_once(rt, alloc, survey, duties, &office)?;
    Ok(join_all(survey, whole, done))
}

/// Answers what is left, by a pass of a desk.
fn finish_by<'a, R: Wait + Sync + Clock>(
    rt: &'a R,
    survey: &'a Survey,
    pass: &'a mut Pass,
    person: &Person,
) -> bool
    requires model { IsOf person.now.model.now (survey_listed survey.now) }
    requires pass { IsDeskPass survey.now pass.old }
    ensures pass { IsDeskPass survey.now pass.new }
{
    let gate = OpenGate;
    let mut desk = Desk::lend(rt, survey, pass, None, 0, &gate);
    finish(rt, &mut desk, person)
}
