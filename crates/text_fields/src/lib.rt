//! Fields at the front of a text of bytes: words, numbers in their one spelling, and lists of
//! numbers.
//!
//! `Fields` is a cursor. Each call reads a field and moves on, or returns `None` where none stands
//! at the front; lists go into cells that the caller lends. It takes no memory and copies no byte.
//! `laws` says what the readers mean: what is read is spelled so, each byte of it, and what is
//! spelled so is read, where the number or list can't go on.
#![tactic(auto)]

mod digits;
mod fields;
pub mod laws;
mod limits;

pub use fields::Fields;

#[cfg(test)]
mod tests;
