//! Times the list of all classes of a model that has nearly as many as a model may have, and the search for the
//! place of each. Without the word `time` it only counts.
#![tactic(auto)]

mod rounds;

use criteria_model::Model;
use pair_enumeration::Classes;
use std::time::{Duration, Instant};
use std::{env, io};

fn main(rt: HostRuntime) -> io::Result<()> {
    let timed = env::args(&rt)?.any(|word| word.as_str() == "time");
    let rounds = if timed { 20 } else { 1 };
    println!(rt; "what    classes")?;
    if let Ok(model) = Model::new(&[2, 2, 2, 2, 3, 3, 5, 5, 5], 3) {
        let start = Instant::now(&rt)?;
        let listed = rounds::list_often(rt.alloc(), &model, rounds)?;
        report(&rt, "listed", listed, start.elapsed(&rt)?, timed)?;
        let classes = Classes::list(rt.alloc(), &model)?;
        let start = Instant::now(&rt)?;
        let found = rounds::find_often(&classes, rounds);
        report(&rt, "found", found, start.elapsed(&rt)?, timed)?;
    }
    Ok(())
}

// A line with the number of classes, and with the nanoseconds a class where they are asked for.
fn report<R: Print>(
    rt: &R,
    what: &str,
    classes: u64,
    took: Duration,
    timed: bool,
) -> io::Result<()> {
    let count = u32::try_from(classes).unwrap_or(u32::MAX).max(1);
    if timed {
        let each = (took / count).subsec_nanos();
        println!(rt; "{what:<7} {classes} {each} ns")
    } else {
        println!(rt; "{what:<7} {classes}")
    }
}
