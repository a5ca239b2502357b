//! The words after the program's name, which name a command.
//!
//! `read_words` gives the command that the words name, or says that they name none: exactly those of the definition
//! `words_of`. Options stand in any order, each at most once, as two words or joined by `=`, and numbers in their one
//! spelling. Memory is taken by the parse of options, and kept for the level counts of a shape only.
//!
//! Inside: `items` tests the spellings and reads options with `clap`, `numbers` and `shapes` read what their values say.
#![tactic(auto)]

mod commands;
mod items;
mod limits;
mod numbers;
mod shapes;

pub use commands::{Command, read_words};
pub use limits::{
    DEFAULT_ELIMINATORS, MAX_CONNECTIONS, MAX_ELIMINATORS, MAX_PORT, MAX_SEED, MAX_SHAPE_COUNTS,
    MAX_SHAPE_NUMBER,
};
pub use shapes::{LevelCounts, Shape};
pub use std::alloc::AllocError as NoMemory;

#[cfg(test)]
mod tests;
