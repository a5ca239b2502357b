//! Combinations of answers as proofs of a verdict on a pair (the easy half of Motzkin's
//! transposition theorem).
//!
//! `flaw` names the first part that a combination lacks, `proves` says whether there is none, and
//! the law `laws::proved_is_ranked` says what a proof is worth. `Cites` keeps at most `MAX_CITES`
//! cited answers with weights, ascending. No call takes memory.
//!
//! Inside: `parts` tests the parts that compare signs and numbers, `sums` adds up the totals,
//! `proof` asks them in order. The sums build no row: they compare the two levels of each criterion
//! and go into it only where these differ.
#![tactic(auto)]

mod cites;
mod combination;
mod flaws;
pub mod laws;
mod parts;
mod proof;
mod sums;

pub use cites::{Cite, Cites, MAX_CITES};
pub use combination::Combination;
pub use flaws::Flaw;
pub use proof::{flaw, proves};
