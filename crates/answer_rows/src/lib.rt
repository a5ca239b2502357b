//! Lists of answers, numbered from 1, with memory kept for more, each answer's row, whether two answers
//! are the same, and how far two lists agree.
//!
//! Only `reserve` and `grow` take memory; `push`, `cut` and `copy_from` leave the sum of length and
//! `spare` as it was, and no call lessens it. Who appends one answer a line calls `grow(1)` before
//! `push`: `grow` takes memory by doubling, so that most calls return at once.
#![tactic(auto)]

mod answers;
mod same;

pub use answers::Answers;
pub use criteria_model::Answer;
pub use same::{common_front, is_same_answer};
