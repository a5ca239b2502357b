//! Alternatives of a table, ranked by what they are worth.
//!
//! `rank` reads a CSV table from a source, whole, with `csv`: a header with the criteria's names and then one record for each
//! alternative, its name and a level's name for each criterion. It gives the alternatives by descending worth, or the first fault
//! of the table: a table that is too long, another header, and then the first record that has too few or too many fields or a
//! text that is no level. Whoever calls it says by `LevelNames` what criteria and levels are called.
//!
//! Inside: `tables` takes the table from its source, `records` has its records, `alternatives` reads one record, and `ranked` keeps
//! the list that is given.
#![tactic(auto)]

mod alternatives;
mod names;
mod ranked;
mod ranks;
mod records;
mod stops;
mod tables;

pub use edges::NoMemory;
pub use names::LevelNames;
pub use ranked::Ranked;
pub use ranks::rank;
pub use stops::{MAX_TABLE, RankStop};
