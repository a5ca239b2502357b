//! The additive model of criteria and levels, its pairs and answers, and what they mean for all
//! value vectors.
//!
//! A `Model` is made from level counts and a degree limit, or refused with the first fault that
//! holds. It says of a pair whether it fits, is a class, which increments the winner has more
//! (`gain`), and which side a vector makes worth more (`ranking`). `Tuple`, `Vector` and `Row` are
//! Copy lists of 1 to `MAX_INCREMENTS` numbers that contracts see as lists. `laws` has the laws of
//! the definitions. No call takes memory.
//!
//! Inside: `limits` names the limits, `counting` has the numbers of a model, `levels` compares two
//! lists of levels, `differences` makes rows.
#![tactic(auto)]

mod counting;
mod differences;
mod faults;
pub mod laws;
mod levels;
mod limits;
mod models;
mod pairs;
mod rows;
mod tuples;
mod vectors;

pub use faults::ModelFault;
pub use limits::{CERTIFICATE_BOUND, MAX_CLASSES, MAX_INCREMENTS, MAX_LEVEL};
pub use models::Model;
pub use pairs::{Answer, Dominance, Pair, Side};
pub use rows::Row;
pub use tuples::Tuple;
pub use vectors::Vector;
