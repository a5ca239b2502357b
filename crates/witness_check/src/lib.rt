//! Value vectors as witnesses: whether they meet answers, and whether two of them open a pair.
//!
//! `meets` and `meets_from` look at all answers or at those after the first few, `opens` at a pair
//! and all answers. Each answer costs one row and one product of at most `MAX_INCREMENTS` terms. No
//! call takes memory.
#![tactic(auto)]

mod witnesses;

pub use witnesses::{meets, meets_from, opens};
