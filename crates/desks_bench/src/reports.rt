//! Runs surveys, and writes how they went.
ghost use Rattle.std.specs.Prelude.{◌≡◌};

use crate::alternation::{Alternation, Jobs, alternate};
use crate::desk_work::{Course, Habits, Person};
use crate::events::Eliminations;
use crate::orders::{Order, Task};
use crate::plan::Plan;
use crate::shapes::Shape;
use crate::survey_run::{Outcome, run_survey};
use crate::times::{Times, time_now, time_since};
use crate::verdict::verdict_of;
use criteria_model::Model;
use result_file::Checked;
use sample_values::hidden_values;
use std::alloc::Global;
use std::io;
use std::sync::Wait;
use std::thread::Threads;
use std::time::{Clock, CpuClock, Duration};

/// Small surveys: the number of each one's model, its desks, its eliminators, and how many of 1,000 rounds begin with a withdrawal.
const TABLE: [(u32, u8, u8, u32); 8] = [
    (1, 2, 0, 200),
    (1, 2, 1, 200),
    (3, 2, 2, 100),
    (3, 2, 4, 100),
    (1, 4, 0, 200),
    (3, 4, 1, 100),
    (3, 4, 2, 100),
    (1, 4, 4, 200),
];

/// How often each desk of the table asks.
const TABLE_ROUNDS: u32 = 30;

/// For how many looks a gate of the table holds whoever comes by, at most.
const TABLE_LOOKS: u32 = 1_000;

/// Where the table's random numbers begin.
const TABLE_SEED: u32 = 7;

/// Runs the table, and writes the checker's verdict on each survey.
pub fn run_table<R: Threads + Wait + Sync + Clock + Print>(
    rt: &R,
    alloc: Global,
) -> io::Result<()> {
    for (number, desks, eliminators, withdrawals) in TABLE {
        let habits = Habits {
            rounds: TABLE_ROUNDS,
            withdrawals,
            thinking: Duration::ZERO,
        };
        let plan = Plan::of(desks, eliminators, habits, TABLE_SEED, TABLE_LOOKS);
        if let (Some(shape), Some(plan)) = (Shape::numbered(number), plan) {
            run_row(rt, alloc, &shape, &plan)?;
        }
    }
    Ok(())
}

/// Runs a survey, and writes its verdict.
fn run_row<R: Threads + Wait + Sync + Clock + Print>(
    rt: &R,
    alloc: Global,
    shape: &Shape,
    plan: &Plan,
) -> io::Result<()> {
    let Ok(model) = Model::new(shape.levels, shape.degree) else {
        return Ok(());
    };
    let hidden = hidden_values(plan.seed, &model);
    let person = Person {
        model: &model,
        hidden: &hidden,
    };
    let mut outcome = run_survey(rt, alloc, &person, plan)?;
    let verdict = word_of(&verdict_of(alloc, &mut outcome.state, &model));
    let (desks, eliminators) = (plan.desks, plan.eliminators);
    let classes = model.class_count();
    println!(rt; "{classes} classes, {desks} desks, {eliminators} eliminators: {verdict}")
}

/// Does what is asked for.
pub fn run_order<R: Threads + Wait + Sync + Clock + CpuClock + Print>(
    rt: &R,
    alloc: Global,
    order: &Order,
) -> io::Result<()> {
    let Ok(model) = Model::new(order.shape.levels, order.shape.degree) else {
        return Ok(());
    };
    match &order.task {
        Task::Run(plan) => run_plan(rt, alloc, &model, plan),
        Task::Turns { seed, most } => run_turns(rt, alloc, &model, *seed, *most),
    }
}

/// Runs a survey, and writes how it went and how long it took.
fn run_plan<R: Threads + Wait + Sync + Clock + CpuClock + Print>(
    rt: &R,
    alloc: Global,
    model: &Model,
    plan: &Plan,
) -> io::Result<()> {
    let hidden = hidden_values(plan.seed, model);
    let person = Person {
        model,
        hidden: &hidden,
    };
    let start = time_now(rt);
    let used = rt.process_cpu_time()?;
    let mut outcome = run_survey(rt, alloc, &person, plan)?;
    let took = time_since(rt, start);
    let used = rt.process_cpu_time()?.saturating_sub(used);
    let verdict = word_of(&verdict_of(alloc, &mut outcome.state, model));
    write_outcome(rt, &mut outcome, took, used)?;
    println!(rt; "the checker says {verdict}")
}

/// Runs a survey in turns on one thread, and writes how long they took and what the jobs came to.
fn run_turns<R: Clock + Print>(
    rt: &R,
    alloc: Global,
    model: &Model,
    seed: u32,
    most: u32,
) -> io::Result<()> {
    let hidden = hidden_values(seed, model);
    let person = Person {
        model,
        hidden: &hidden,
    };
    let Alternation {
        questions,
        turns,
        jobs,
    } = alternate(rt, alloc, &person, most)?;
    let classes = model.class_count();
    println!(rt; "{classes} classes, {questions} questions")?;
    write_times(rt, "turns of the desk", &turns)?;
    write_times(rt, "jobs taken", &jobs.takes)?;
    write_times(rt, "jobs handed in", &jobs.hand_ins)?;
    write_times(rt, "decisions by a solve", &jobs.solved)?;
    write_times(rt, "decisions without one", &jobs.looked_up)?;
    let Jobs {
        still_open,
        still_open_solved,
        ..
    } = jobs;
    println!(rt;
        "{still_open} jobs were classes whose kept vectors met all answers, {still_open_solved} of these took a solve"
    )
}

/// Writes how a survey went.
fn write_outcome<R: Print>(
    rt: &R,
    outcome: &mut Outcome,
    took: Duration,
    used: Duration,
) -> io::Result<()> {
    let Course {
        questions,
        withdrawals,
        replies,
        waits,
        took: worked,
        ..
    } = outcome.course;
    let worked = worked.as_micros();
    let took = took.as_micros();
    let used = used.as_micros();
    println!(rt;
        "{questions} questions, {withdrawals} withdrawals, the desks took {worked} us, all {took} us, processors {used} us"
    )?;
    write_times(rt, "replies", &replies)?;
    write_times(rt, "waits", &waits)?;
    let recorded = outcome.hand_ins.recorded;
    let kept = outcome.hand_ins.kept;
    let stale = outcome.hand_ins.stale;
    println!(rt; "hand-ins: {recorded} recorded, {kept} kept, {stale} stale")?;
    let Eliminations {
        by_desks,
        by_eliminators,
    } = Eliminations::of(&mut outcome.state);
    println!(rt; "eliminated: {by_desks} by desks, {by_eliminators} by eliminators")
}

fn write_times<R: Print>(rt: &R, what: &str, times: &Times) -> io::Result<()> {
    let count = times.count;
    let total = times.total.as_micros();
    let mean = times.mean().as_nanos();
    let longest = times.longest.as_micros();
    println!(rt; "{count} {what}: {total} us, {mean} ns each, the longest {longest} us")
}

/// The words of a verdict.
fn word_of(verdict: &Checked) -> &'static str {
    match verdict {
        Checked::Valid => "valid",
        Checked::ValidComplete => "valid complete",
        Checked::NoMemory => "out of memory",
        _ => "not valid",
    }
}
