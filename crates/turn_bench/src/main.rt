//! Times turns of the ticket lock beside std's `Mutex`. Without the word `time` it only counts.
#![tactic(auto)]

mod counter;
mod locks;
mod turns;

use std::time::{Duration, Instant};
use std::{env, io};

fn main(rt: HostRuntime) -> io::Result<()> {
    let timed = env::args(&rt)?.any(|word| word.as_str() == "time");
    let rounds = if timed { 2_000_000 } else { 1_000 };
    println!(rt; "threads  lock    steps")?;
    let start = Instant::now(&rt)?;
    let steps = turns::by_one(&rt, rt.alloc(), rounds)?;
    report(&rt, 1, "turn", steps, start.elapsed(&rt)?, timed)?;
    let start = Instant::now(&rt)?;
    let steps = locks::by_one(&rt, rounds);
    report(&rt, 1, "mutex", steps, start.elapsed(&rt)?, timed)?;
    let start = Instant::now(&rt)?;
    let steps = turns::by_two(&rt, rt.alloc(), rounds)?;
    report(&rt, 2, "turn", steps, start.elapsed(&rt)?, timed)?;
    let start = Instant::now(&rt)?;
    let steps = locks::by_two(&rt, rounds);
    report(&rt, 2, "mutex", steps, start.elapsed(&rt)?, timed)?;
    let start = Instant::now(&rt)?;
    let steps = turns::by_four(&rt, rt.alloc(), rounds)?;
    report(&rt, 4, "turn", steps, start.elapsed(&rt)?, timed)?;
    let start = Instant::now(&rt)?;
    let steps = locks::by_four(&rt, rounds);
    report(&rt, 4, "mutex", steps, start.elapsed(&rt)?, timed)
}

// A line with the steps, and with the nanoseconds a step where they are asked for.
fn report<R: Print>(
    rt: &R,
    threads: u32,
    lock: &str,
    steps: u64,
    took: Duration,
    timed: bool,
) -> io::Result<()> {
    let count = u32::try_from(steps).unwrap_or(u32::MAX).max(1);
    if timed {
        let each = (took / count).subsec_nanos();
        println!(rt; "{threads:<8} {lock:<7} {steps} {each} ns")
    } else {
        println!(rt; "{threads:<8} {lock:<7} {steps}")
    }
}
