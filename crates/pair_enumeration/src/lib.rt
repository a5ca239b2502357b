//! All classes of a model, in order, and the place of each.
//!
//! `Classes::list` makes the list by a walk over the criteria, which gives each its two levels or
//! cancels it and keeps in mind which sides were higher so far: no list is sorted, and nothing is
//! tried that can't become a class. `place` is a binary search by the order of the definition, some
//! 14 comparisons in the longest list. `place_of` looks two alternatives up, with the levels that
//! they share cancelled, as they are and exchanged. Only `list` takes memory.
//!
//! Inside: `walks` makes the list, `search` finds places; `laws` has the laws of places and of the
//! list.
#![tactic(auto)]

mod classes;
mod flips;
pub mod laws;
mod search;
mod walks;

pub use classes::Classes;
pub use flips::Flip;
