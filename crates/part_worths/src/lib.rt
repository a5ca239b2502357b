//! What the levels of a criterion are worth under a value vector, and the share of each criterion.
//!
//! `level_value` gives the value of one level. `shares` gives each criterion's share of the total in
//! ten-thousandths, which add up to exactly 10,000: each is rounded down, and what is then missing
//! goes by ones to the largest remainders (Hamilton's method). No call takes memory.
//!
//! Inside: `apportionment` shares a whole out over any list of numbers, `values` has the values of a
//! model's levels, `laws` what holds of both definitions.
#![tactic(auto)]

mod apportionment;
pub mod laws;
mod values;

pub use apportionment::{Shares, WHOLE};
pub use values::{level_value, shares};
