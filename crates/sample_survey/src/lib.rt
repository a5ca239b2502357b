//! Sample surveys: a respondent that answers by hidden values, which a seed gives.
//!
//! `sample_by` asks and answers at any desk that has seen nothing yet, up to Complete, and counts what came as a `Summary`. Where
//! others record at the same survey it stops at the first reply that a sample doesn't have; where it is alone on the journal,
//! eliminations apart, the summary is the sample of the model and the seed: that of the plain run in which each question is
//! answered by the hidden values. `solo_sample` does so in a survey of its own. `laws` says that a model and a seed have one
//! sample at most. Only the survey takes memory.
#![tactic(auto)]

pub mod laws;
mod samples;
mod summary;

pub use samples::{sample_by, solo_sample};
pub use summary::Summary;
/// The one error: out of memory.
pub use std::alloc::AllocError as NoMemory;

#[cfg(test)]
mod tests;
