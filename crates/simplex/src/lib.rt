//! The solver: a positive vector that meets the loaded rows of a dictionary, or weights that show
//! that none does.
//!
//! `solve` pivots by the least-index rule, which ends (`least_index`), from any dictionary, fresh
//! or warm. `solve_last` finds the same by raising the row that was added last while the others
//! stay feasible, mostly without a pivot, and solves only where that settles nothing; `settle`
//! makes a dictionary feasible in this way. No call takes memory, and the rows stay as they were.
//!
//! Inside: `choice` has the rule's row and column, `solver` the loop, `raise` the raised row,
//! `point` the vector of a feasible dictionary, `clash` the weights of a blocked row's equation,
//! `row_weights` a list of at most 25 weighted rows, `divisor` greatest common divisors.
#![tactic(auto)]

mod choice;
mod clash;
mod divisor;
mod found;
mod point;
mod raise;
mod row_weights;
mod solver;
#[cfg(test)]
mod tests;

pub use divisor::{common_divisor, divided};
pub use found::{Clash, Found};
pub use point::reduced;
pub use raise::{settle, solve_last};
pub use row_weights::{MAX_ROW_WEIGHTS, RowWeight, RowWeights};
pub use solver::solve;
