//! Runs surveys at which several desks and eliminators work at once, and has the checker look at their journals.
//!
//! Without words it runs a table of small surveys, and writes the verdicts. Words: `run NUMBER SEED DESKS ELIMINATORS ROUNDS
//! WITHDRAWALS THINKING LOOKS` writes how a survey went and how long it took. NUMBER is that of a model (`Shape`), SEED is where
//! the random numbers begin; each desk asks ROUNDS times at most and thinks THINKING microseconds about a question; of 1,000
//! rounds WITHDRAWALS begin with a withdrawal; the gate holds whoever comes by for LOOKS looks at most. `turns NUMBER SEED MOST`
//! lets a desk and an eliminator take turns on one thread, and writes how long turns took and what the jobs came to; after each
//! answer MOST jobs are done at most.
#![tactic(auto)]

mod alternation;
mod desk_work;
mod eliminator_work;
mod events;
mod hand_ins;
mod leftovers;
mod orders;
mod passes;
mod plan;
mod reports;
mod shapes;
mod survey_run;
mod threads;
mod timed_access;
mod times;
mod uneven_gate;
mod verdict;

use crate::orders::Order;
use crate::reports::{run_order, run_table};
use std::process::ExitCode;
use std::{env, io};

fn main(rt: HostRuntime) -> io::Result<ExitCode> {
    let words: Vec<String> = env::args(&rt)?.skip(1).collect(rt.alloc())?;
    if words.is_empty() {
        run_table(&rt, rt.alloc())?;
        return Ok(ExitCode::from(0));
    }
    let Some(order) = Order::from_words(words.as_slice()) else {
        return Ok(ExitCode::from(2));
    };
    run_order(&rt, rt.alloc(), &order)?;
    Ok(ExitCode::from(0))
}
