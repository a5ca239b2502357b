//! An integer simplex dictionary: each basic variable as a constant plus a combination of the
//! nonbasic ones, all times one positive scale. A pivot divides exactly, and no number grows past
//! 2^89.
//!
//! `load` empties a dictionary, `add_row` and `drop_last` let rows come and go at any time, `pivot`
//! exchanges a basic and a nonbasic variable. All memory is taken by `reserve`. Variable 0 is the
//! constant 1, and a line's last number is its constant.
//!
//! Rows lie in one block of memory (`lines`), and a pivot walks them in order with one `Divisor` of
//! the old scale. Where old and new scale are equal, a row with a 0 in the pivot's column stays as it
//! is, and so does each number under a 0 of the pivot's row; where both are 1 nothing is divided. `places` keeps each
//! variable's place beside the list of variables, so that no call searches for one; `drop_last`
//! looks for the first row to pivot on.
#![tactic(auto)]

mod dictionary;
mod limits;
mod lines;
mod loaded;
mod places;
mod slack_line;

pub use dictionary::Dictionary;
pub use limits::MAX_ROWS;
pub use loaded::LoadedRow;
pub use std::alloc::AllocError as NoMemory;

#[cfg(test)]
mod tests;
