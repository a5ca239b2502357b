//! Values that nobody chose: what a seed draws, and the hidden values by which a sample respondent answers.
//!
//! `Draws` is a linear congruential generator of 31 bits, whose draws are from 0 to 999.
//! `hidden_values` gives each increment of a model 1 plus a draw, in order. Neither takes memory.
#![tactic(auto)]

mod draws;
mod hidden;

pub use draws::Draws;
pub use hidden::hidden_values;

#[cfg(test)]
mod tests;
