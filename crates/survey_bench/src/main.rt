//! Runs surveys of one desk, and writes what they reply, what they record, or how long they take.
//!
//! Words: `replies NUMBER SEED`, `mixed NUMBER SEED COUNT`, `journal NUMBER SEED COUNT` or `time NUMBER SEED`. NUMBER is
//! that of a model (`Shape`), SEED is where the random numbers begin, COUNT that of requests at random (`Task`).
#![tactic(auto)]

mod counts;
mod exchanges;
mod hidden;
mod orders;
mod output;
mod requests;
mod runs;
mod shapes;
mod tasks;
mod timings;

use crate::orders::{Order, Task};
use crate::tasks::perform;
use criteria_model::Model;
use std::process::ExitCode;
use std::{env, io};
use survey_state::Solo;

fn main(rt: HostRuntime) -> io::Result<ExitCode> {
    let words: Vec<String> = env::args(&rt)?.skip(1).collect(rt.alloc())?;
    let Some(order) = Order::from_words(words.as_slice()) else {
        return Ok(ExitCode::from(2));
    };
    let Ok(model) = Model::new(order.shape.levels, order.shape.degree) else {
        return Ok(ExitCode::from(2));
    };
    let mut desk = Solo::new(rt.alloc(), &model)?;
    perform(&rt, &order, &model, &mut desk)?;
    if let Task::Time = order.task {
        let rows = desk.tools().work.added();
        println!(rt; "the solver took {rows} rows")?;
    }
    Ok(ExitCode::from(0))
}
