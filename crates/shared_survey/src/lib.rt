//! A survey that several threads share.
//!
//! `Survey::build` puts a `State` behind the lock of `turn_lock` and gives a `Pass` with all its weight. `pass` splits one
//! off for a desk, with tools of its own, `worker_pass` one for an eliminator; `join` adds them up again, and `close` gives the
//! state back. A pass shows the journal that it has seen and which of its places are its own.
//!
//! The calls of a desk (`next`, `answer`, `values`, `withdraw`) are those of `survey_state` over an `Access` by the pass. A
//! `Desk` is the same as a `Respondent`, and hands the job line a job after each answer that is accepted; a `SurveyBench` is a
//! `Bench`.
//! Each may wait for a turn; nothing is solved in one.
//!
//! Inside: a pass has a `SurveySeat`, a seat at the lock that has seen a legal journal; `PassAccess` lends a pass to a call.
#![tactic(auto)]

mod bench;
mod desk;
mod desk_calls;
mod pass;
mod pass_access;
mod seat;
mod shared_state;
mod survey;

pub use bench::{BenchAbout, SurveyBench};
pub use desk::Desk;
pub use eliminators::{hand_in_to, take_from};
pub use pass::{Front, Pass};
pub use pass_access::PassAbout;
pub use survey::Survey;

#[cfg(test)]
mod tests;
