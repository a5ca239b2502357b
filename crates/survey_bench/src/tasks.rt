//! What is done with a survey.
ghost use Rattle.survey_bench.specs.Desks.{IsOf};

use crate::counts::Counts;
use crate::exchanges::exchange;
use crate::hidden::few_values;
use crate::orders::{Order, Task};
use crate::output::Output;
use crate::requests::Request;
use crate::runs::{answer_all, ask_at_random};
use crate::timings::Times;
use criteria_model::Model;
use edges::StdSink;
use sample_values::Draws;
use std::io;
use std::time::{CpuClock, Duration};
use survey_replies::Respondent;

/// Does what is asked for, at a desk of a survey that has not begun.
pub fn perform<R: Respondent>(
    rt: &HostRuntime,
    order: &Order,
    model: &Model,
    desk: &mut R,
) -> io::Result<()>
    requires waits { R.can_wait }
    requires desk { IsOf model.now (R.listed (R.about desk.old)) }
{
    let (count, shows_replies) = match order.task {
        Task::Replies => (0, true),
        Task::Mixed { count } => (count, true),
        Task::Journal { count } => (count, false),
        Task::Time => (0, false),
    };
    let mut draws = Draws::from_seed(order.seed);
    let hidden = few_values(&mut draws, model.increments(), order.shape.spread);
    let mut output = Output::new(rt.alloc(), StdSink::new(rt.stdout()), shows_replies)?;
    if shows_replies {
        write_model(rt, model)?;
    }
    ask_at_random(rt, desk, model, &mut draws, count, &mut output)?;
    let start = rt.thread_cpu_time()?;
    let calls = answer_all(rt, rt.alloc(), desk, model, &hidden, &mut output)?;
    exchange(rt, desk, model, Request::Values, &mut output)?;
    let whole = rt.thread_cpu_time()?.saturating_sub(start);
    match order.task {
        Task::Replies | Task::Mixed { .. } => Ok(()),
        Task::Journal { .. } => output.put_journal(desk, model),
        Task::Time => {
            let counts = Counts::of(desk);
            write_times(rt, model, &counts, whole, &Times::of(calls.as_slice()))
        }
    }
}

/// Writes the line of a model.
fn write_model(rt: &impl Print, model: &Model) -> io::Result<()> {
    print!(rt; "model ")?;
    for place in 0..model.criteria() {
        let levels = model.levels(place + 1);
        let comma = if place > 0 { "," } else { "" };
        print!(rt; "{comma}{levels}")?;
    }
    let degree = model.degree();
    println!(rt; " degree {degree}")
}

/// Writes how a survey went and how long it took.
fn write_times(
    rt: &impl Print,
    model: &Model,
    counts: &Counts,
    whole: Duration,
    times: &Times,
) -> io::Result<()> {
    let Counts {
        asked,
        by_one,
        by_more,
    } = counts;
    let classes = model.class_count();
    let total = times.total.as_micros();
    let early = times.early.as_nanos();
    let late = times.late.as_nanos();
    println!(rt;
        "classes {classes} questions {asked} eliminated by one answer {by_one} by more {by_more}"
    )?;
    let whole = whole.as_micros();
    println!(rt;
        "the survey took {whole} microseconds, its questions {total}, a class {early} ns early and {late} ns late"
    )
}
