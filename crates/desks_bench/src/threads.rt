//! Desks and eliminators that work at once, each in a thread of its own.
ghost use Rattle.std.specs.Option.{ForSome};
ghost use Rattle.std.specs.Prelude.{◌≡◌, All, IfOk, length};
ghost use Rattle.std.specs.Thread.{IsSync};
ghost use Rattle.shared_survey.specs.Passes.{survey_listed};
ghost use Rattle.desks_bench.specs.Runs.{IsOf, IsDeskPass, IsSingle};
ghost use Rattle.desks_bench.specs.Work.{IsDuty};

use crate::desk_work::{Course, Habits, Person, work};
use crate::eliminator_work::{Eliminator, eliminate};
use crate::hand_ins::HandIns;
use crate::uneven_gate::UnevenGate;
use eliminators::JobEnd;
use sample_values::Draws;
use shared_survey::{Desk, Pass, Survey};
use std::alloc::{AllocError as NoMemory, Global};
use std::sync::Wait;
use std::sync::atomic::{AtomicU64, Ordering};
use std::thread;
use std::thread::Threads;
use std::time::Clock;

/// What a pass is for.
#[derive(Drop)]
pub enum Role {
    /// A desk, and where its random numbers begin.
    Desk { seed: u32 },
    Eliminator(Eliminator),
}

/// What a thread works with.
#[derive(Drop)]
pub struct Duty {
    pub pass: Pass,
    pub role: Role,
}

/// What a thread brings back.
#[derive(Drop)]
pub struct Done {
    pub pass: Pass,
    pub course: Course,
    pub hand_ins: HandIns,
}

/// What all threads have in common.
#[derive(Drop)]
pub struct Office<'a> {
    pub person: Person<'a>,
    pub habits: Habits,
    /// The line of the survey's jobs, and for how many eliminators it is.
    pub line: &'a JobEnd,
    pub eliminators: u8,
    pub gate: &'a UnevenGate,
    /// How many desks are at work.
    pub desks_left: AtomicU64,
    ghost one: { line.now.surveys ≡ 1 },
}

/// Each duty is done in a thread of its own. The desk that ends last tells the eliminators to stop.
pub fn work_at_once<R: Threads + Wait + Sync + Clock>(
    rt: &R,
    alloc: Global,
    survey: &Survey,
    duties: Vec<Duty>,
    office: &Office,
) -> Result<Vec<Done>, NoMemory>
    requires model { IsOf office.now.person.model.now (survey_listed survey.now) }
    requires duties { All (IsDuty survey.now office.now.person.model.now) duties.items }
    ensures all { IfOk result (λ done. All (λ d. IsSingle survey.now d.pass) done.items) }
    ensures len { IfOk result (λ done. length done.items ≡ length duties.items) }
{
    thread::map_vec(
        rt,
        duties,
        &|duty: Duty| -> Done
            requires { IsSync R.row × IsOf office.now.person.model.now (survey_listed survey.now) × IsDuty survey.now office.now.person.model.now duty }
            ensures { IsSingle survey.entry.now result.pass }
        { do_duty(rt, alloc, survey, duty, office) },
    )
}

/// Works as a desk or as an eliminator.
fn do_duty<'a, R: Wait + Sync + Clock>(
    rt: &'a R,
    alloc: Global,
    survey: &'a Survey,
    duty: Duty,
    office: &'a Office<'a>,
) -> Done
    requires model { IsOf office.now.person.model.now (survey_listed survey.now) }
    requires duty { IsDuty survey.now office.now.person.model.now duty }
    ensures pass { IsSingle survey.now result.pass }
{
    let Duty { mut pass, role } = duty;
    match role {
        Role::Desk { seed } => {
            let course = work_as_desk(&*rt, &*survey, &mut pass, &*office, seed);
            end_desk(rt, office);
            let hand_ins = HandIns::none();
            Done {
                pass,
                course,
                hand_ins,
            }
        }
        Role::Eliminator(eliminator) => {
            let model = office.person.model;
            let (pass, hand_ins) = eliminate(
                &*rt,
                alloc,
                &*survey,
                model,
                pass,
                eliminator,
                office.gate,
            );
            let course = Course::none();
            Done {
                pass,
                course,
                hand_ins,
            }
        }
    }
}

/// A desk works by its pass.
fn work_as_desk<'a, R: Wait + Sync + Clock>(
    rt: &'a R,
    survey: &'a Survey,
    pass: &'a mut Pass,
    office: &'a Office<'a>,
    seed: u32,
) -> Course
    requires model { IsOf office.now.person.model.now (survey_listed survey.now) }
    requires pass { IsDeskPass survey.now pass.old }
    ensures pass { IsDeskPass survey.now pass.new }
{
    let mut draws = Draws::from_seed(seed);
    let jobs = jobs_of(office);
    let mut desk = Desk::lend(rt, survey, pass, jobs, 1, office.gate);
    work(rt, &mut desk, &office.person, &mut draws, &office.habits)
}

/// The line of jobs, where there are eliminators.
fn jobs_of<'a>(office: &'a Office<'a>) -> Option<&'a JobEnd>
    ensures { ForSome result (λ end. end.now.surveys ≡ 1) }
{
    if office.eliminators > 0 {
        Some(office.line)
    } else {
        None
    }
}

/// Tells the eliminators to stop, where this was the last desk at work.
fn end_desk<R: Wait>(rt: &R, office: &Office) {
    if office.desks_left.fetch_sub(1, Ordering::SeqCst) == 1 {
        for _ in 0..office.eliminators {
            office.line.stop(rt);
        }
    }
}
