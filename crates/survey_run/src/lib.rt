//! The run of a script: desks at once, eliminators beside them.
//!
//! `run_sessions` holds the sessions of a script: those of one desk in input order on one thread, different desks at once, beside
//! eliminators. Its contract (`IsRun`) says of the one journal of each respondent's survey what each desk and each eliminator did,
//! and of each line which reply it got. `RunEnd` shows the final states and the replies.
//!
//! Inside: `plans` takes all memory and splits the passes; `speaking` is what a desk says, `desk_threads` its thread;
//! `worker_threads` the threads of eliminators; `runs` starts and joins them all; `ends` joins the passes and ends each survey;
//! `collect` puts the replies into input order.
#![tactic(auto)]

mod collect;
mod desk_threads;
mod desks;
mod ends;
pub mod laws;
mod plans;
mod run_end;
mod runs;
mod sample_run;
mod script_run;
mod speaking;
mod worker_threads;
mod workers;

pub use run_end::RunEnd;
pub use sample_run::run_sample;
pub use script_run::run_sessions;

#[cfg(test)]
mod tests;
