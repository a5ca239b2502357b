//! What is still to be done of a survey's classes: a mark and the latest vectors of each.
//!
//! `Pool` gives the first class that is not ranked, the first that is neither ranked nor asked, and
//! the next to be given to an eliminator. It keeps for each class two vectors that rank it
//! oppositely, with how many answers they are known to meet. Contracts see of it the marks and the
//! vectors, one of each a class; a place counts from 1.
//!
//! All memory is taken by `Pool::new`. Nothing is looked for from the start again: the pool keeps how
//! far each search has come, and `mark_ranked_in` and `mark_asked_in` state what a mark costs.
#![tactic(auto)]

pub mod laws;
mod marks;
mod pool;
mod search;
mod steps;

pub use marks::{Kept, Mark};
pub use pool::Pool;
/// The one error: out of memory.
pub use std::alloc::AllocError as NoMemory;
pub use steps::Steps;
