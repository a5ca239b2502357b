//! Decides all classes of six criteria of four levels, along the answers that hidden values give: by
//! `Tools::decide`, which looks before it solves (tools), by one answer that suffices, else a solve
//! with the dictionary of the decision before (one), by that solve alone (warm), and by one with a
//! dictionary that is loaded anew for each (cold). Without the word `time` it only counts.
#![tactic(auto)]

mod run;
mod tally;

use crate::run::{Start, decide_rounds};
use crate::tally::Tally;
use criteria_model::Model;
use decider::Tools;
use pair_enumeration::Classes;
use sample_values::hidden_values;
use std::alloc::Global;
use std::time::{CpuClock, Duration};
use std::{env, io};

fn main(rt: HostRuntime) -> io::Result<()> {
    let timed = env::args(&rt)?.any(|word| word.as_str() == "time");
    println!(rt; "degree start classes answers one_answer known implied undecided loads rows")?;
    let rounds = if timed { 20 } else { 1 };
    measure(&rt, rt.alloc(), 2, Start::Tools, rounds, timed)?;
    measure(&rt, rt.alloc(), 2, Start::OneAnswer, rounds, timed)?;
    measure(&rt, rt.alloc(), 2, Start::Warm, rounds, timed)?;
    measure(&rt, rt.alloc(), 2, Start::Cold, rounds, timed)?;
    if timed {
        measure(&rt, rt.alloc(), 3, Start::Tools, 1, timed)?;
        measure(&rt, rt.alloc(), 3, Start::OneAnswer, 1, timed)?;
        measure(&rt, rt.alloc(), 3, Start::Warm, 1, timed)?;
    }
    Ok(())
}

// Decides all classes of a degree limit in each of `rounds` rounds, and prints a line on it.
fn measure<R: Print + CpuClock>(
    rt: &R,
    alloc: Global,
    degree: u32,
    start: Start,
    rounds: u32,
    timed: bool,
) -> io::Result<()> {
    let Ok(model) = Model::new(&[4; 6], degree) else {
        return Ok(());
    };
    let classes = Classes::list(alloc, &model)?;
    let mut tools = Tools::reserve(alloc, &model)?;
    let hidden = hidden_values(1, &model);
    let before = rt.thread_cpu_time()?;
    let mut tally = Tally::none();
    decide_rounds(&classes, &hidden, start, rounds, &mut tools, &mut tally);
    let took = rt.thread_cpu_time()?.saturating_sub(before);
    let count = classes.count();
    let answers = tools.snapshot.answers.len();
    let loads = tools.work.loads();
    let rows = tools.work.added();
    let word = start.word();
    let Tally {
        one_answer,
        known,
        implied,
        undecided,
    } = tally;
    print!(rt;
        "{degree:<6} {word:<5} {count:<7} {answers:<7} {one_answer:<10} {known:<5} {implied:<7} {undecided:<9} {loads:<5} {rows}"
    )?;
    report(rt, count.saturating_mul(rounds), took, timed)
}

// The end of a line, with the decisions a second of processor time where they are asked for.
fn report<R: Print>(rt: &R, decisions: u32, took: Duration, timed: bool) -> io::Result<()> {
    if !timed {
        return println!(rt;);
    }
    let each = (took / decisions.max(1)).subsec_nanos().max(1);
    let rate = 1_000_000_000 / each;
    println!(rt; " {each} ns each, {rate} a second")
}
