//! Eliminators: workers that find out beside the desks of a survey which classes its answers rank.
//!
//! A worker takes a class that no event ranks (`Bench::take`), decides it on a copy of the answers, and
//! hands the decision in (`Bench::hand_in`), where it is tested again by the answers of that turn.
//! Between the two it holds nothing. `work_until_idle` goes on until no job is left; `worker` does so
//! at the bench of each survey that comes by the job line (`JobEnd`), until it is told to stop.
//!
//! Both work at any `Bench`. `take_from` and `hand_in_to` do to a state what a bench does in its turn.
//! `laws` has what the work comes to.
//!
//! No call but `job_line` and `Benches::reserve` takes memory.
#![tactic(auto)]

mod bench;
mod benches;
mod eliminator;
mod job;
pub mod laws;
mod limits;
mod line;
mod state_turns;
mod waiting;
mod work;

pub use bench::Bench;
pub use benches::Benches;
pub use eliminator::worker;
pub use job::{HandIn, Job};
pub use limits::MAX_JOBS;
pub use line::{JobEnd, job_line};
pub use state_turns::{hand_in_to, take_from};
pub use work::{Tally, work_until_idle};

#[cfg(test)]
mod tests;
