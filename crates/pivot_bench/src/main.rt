//! Times pivots of 24 columns and 2,000 rows on short and on large entries, and exact steps on wide
//! factors. Without the word `time` it only counts.
#![tactic(auto)]

mod rounds;

use fraction_free::Dictionary;
use rounds::Rows;
use std::time::{Clock, Duration, Instant};
use std::{env, io};

fn main(rt: HostRuntime) -> io::Result<()> {
    let timed = env::args(&rt)?.any(|word| word.as_str() == "time");
    let rows = if timed { 2_000 } else { 60 };
    println!(rt; "what            bits steps")?;
    let mut mixed = Dictionary::reserve(rt.alloc(), 24, rows)?;
    rounds::fill(&mut mixed, rows, Rows::Mixed);
    time_pivots(&rt, "first pivots", &mut mixed, 0, timed)?;
    time_pivots(&rt, "later pivots", &mut mixed, 24, timed)?;
    let mut largest = Dictionary::reserve(rt.alloc(), 24, rows)?;
    rounds::fill(&mut largest, rows, Rows::Largest);
    time_pivots(&rt, "growing entries", &mut largest, 0, timed)?;
    time_pivots(&rt, "large entries", &mut largest, 24, timed)?;
    let start = Instant::now(&rt)?;
    let steps = rounds::wide_steps(1_000);
    report(&rt, "wide steps", 101, steps, start.elapsed(&rt)?, timed)
}

/// Pivots once in each column, and a line on them.
fn time_pivots<R: Print + Clock>(
    rt: &R,
    what: &str,
    work: &mut Dictionary,
    first: u32,
    timed: bool,
) -> io::Result<()> {
    let start = Instant::now(rt)?;
    let entries = rounds::pivots(work, first);
    let took = start.elapsed(rt)?;
    report(rt, what, rounds::most_bits(work), entries, took, timed)
}

/// A line with the sizes and the steps, and with the nanoseconds a step where they are asked for.
fn report<R: Print>(
    rt: &R,
    what: &str,
    bits: u32,
    steps: u64,
    took: Duration,
    timed: bool,
) -> io::Result<()> {
    if timed {
        let tenths = took.as_nanos() * 10 / u128::from(steps.max(1));
        let (whole, part) = (tenths / 10, tenths % 10);
        println!(rt; "{what:<15} {bits:>4} {steps} {whole}.{part} ns")
    } else {
        println!(rt; "{what:<15} {bits:>4} {steps}")
    }
}
