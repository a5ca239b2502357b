//! Decisions on pairs: whether answers rank a pair, with a certificate either way, and a vector for
//! one more answer.
//!
//! `decide` works on answers that a given vector meets. A dictionary that stands for them is kept
//! from call to call, and is loaded anew only where it stood for none of their prefixes.
//! `Tools::decide` gives the same decision and solves only where neither one answer suffices
//! (`implied_by_one`) nor two known vectors open the pair; then it tests what the dictionary finds
//! as it stands, and sees only after a failed test that this stands for the answers. `point_with`
//! solves only for an answer `equal`. All memory is taken by `Tools::reserve`.
//!
//! Inside: `standing` brings a dictionary up to date, `trial` tries a ranking beside its rows,
//! `combination` makes a combination of a clash, with `cite_list`; `rows` has the rows of a
//! ranking, `one_answer` compares levels, `witnesses` keeps at most 96 vectors with how many
//! answers each is known to meet, `tested` tests what a dictionary finds; `decisions`, `tools` and
//! `point` have the calls.
#![tactic(auto)]

mod cite_list;
mod combination;
mod decision;
mod decisions;
mod one_answer;
mod point;
mod rows;
mod standing;
mod tested;
mod tools;
mod trial;
mod witnesses;

pub use decision::Decision;
pub use decisions::decide;
pub use one_answer::implied_by_one;
pub use point::point_with;
pub use tools::{Snapshot, Tools};
