//! The passes of a survey, split off for threads and joined again.
ghost use Rattle.std.specs.Prelude.{◌≡◌, ◌+◌, All, IfOk, length};
ghost use Rattle.desks_bench.specs.Runs.{HasWeight, IsSingle};
ghost use Rattle.desks_bench.specs.Work.{IsDuty};

use crate::desk_work::Course;
use crate::eliminator_work::Eliminator;
use crate::hand_ins::HandIns;
use crate::plan::Plan;
use crate::threads::{Done, Duty, Role};
use criteria_model::Model;
use decider::Tools;
use eliminators::JobEnd;
use shared_survey::{Pass, Survey};
use std::alloc::{AllocError as NoMemory, Global};

/// The duties of the desks.
pub fn desk_duties(
    alloc: Global,
    survey: &Survey,
    whole: &mut Pass,
    model: &Model,
    plan: &Plan,
) -> Result<Vec<Duty>, NoMemory>
    requires { HasWeight survey.now whole.old (plan.now.desks + plan.now.eliminators + 1) }
    ensures weight { IfOk result (λ _. HasWeight survey.now whole.new (plan.now.eliminators + 1)) }
    ensures all { IfOk result (λ duties. All (IsDuty survey.now model.now) duties.items) }
    ensures len { IfOk result (λ duties. length duties.items ≡ plan.now.desks) }
{
    let mut duties = Vec::with_capacity(alloc, usize::from(plan.desks))?;
    for number in 0..plan.desks {
        let pass = survey.pass(alloc, whole, number + 1)?;
        let seed = plan.seed.wrapping_add(u32::from(number));
        let role = Role::Desk { seed };
        duties.push_reserved(Duty { pass, role });
    }
    Ok(duties)
}

/// Adds the duties of the eliminators.
pub fn add_eliminators(
    alloc: Global,
    survey: &Survey,
    whole: &mut Pass,
    model: &Model,
    line: &JobEnd,
    plan: &Plan,
    duties: &mut Vec<Duty>,
) -> Result<(), NoMemory>
    requires weight { HasWeight survey.now whole.old (plan.now.eliminators + 1) }
    requires line { line.now.surveys ≡ 1 }
    requires duties { All (IsDuty survey.now model.now) duties.old.items }
    ensures weight { IfOk result (λ _. HasWeight survey.now whole.new 1) }
    ensures all { IfOk result (λ _. All (IsDuty survey.now model.now) duties.new.items) }
    ensures len { IfOk result (λ _. length duties.new.items ≡ length duties.old.items + plan.now.eliminators) }
{
    for before in 0..plan.eliminators {
        let tools = Tools::reserve(alloc, model)?;
        let end = line.another(alloc)?;
        let number = before + 1;
        let eliminator = Eliminator { number, tools, end };
        let pass = survey.worker_pass(whole);
        let role = Role::Eliminator(eliminator);
        duties.push(Duty { pass, role })?;
    }
    Ok(())
}

/// Joins what was brought back.
pub fn join_all(survey: &Survey, whole: &mut Pass, done: Vec<Done>) -> (Course, HandIns)
    requires weight { HasWeight survey.now whole.old 1 }
    requires all { All (λ d. IsSingle survey.now d.pass) done.items }
    ensures weight { HasWeight survey.now whole.new (1 + length done.items) }
{
    let mut course = Course::none();
    let mut hand_ins = HandIns::none();
    for one in done {
        course = course.and(&one.course);
        hand_ins = hand_ins.and(&one.hand_ins);
        survey.join(whole, one.pass);
    }
    (course, hand_ins)
}
