//! Checked files: claims about a model, or the record of a survey, tested line by line.
//!
//! `check_result` reads a file from a source and gives the verdict that its bytes deserve. `laws`
//! says that each text deserves exactly one verdict and is worth what it says. `load_result` reads
//! one result up to its end line and hands out the survey. Of claims only the answers are kept, and
//! memory grows with them; of a survey what a `Core` keeps and the points of the answers that stand,
//! all taken at the model line.
//!
//! Inside: `checking` has the loop over lines. `progress` says how far the file has come: no line,
//! the heading, a body, or a body that has ended. `bodies` is either `claims` or `survey`.
//! `entries` and `eliminations` read one line in place, with the fields of `line_fields`; an entry
//! names its class by a pair, as the line does, and `survey` looks the pair up.
#![tactic(auto)]

mod bodies;
mod checking;
mod claims;
mod eliminations;
mod entries;
mod journals;
mod kinds;
pub mod laws;
mod limits;
mod line_fields;
mod loading;
mod migration;
mod progress;
mod results;
mod stops;
mod survey;
mod verdicts;
mod writing;

pub use checking::check_result;
pub use eliminations::Elimination;
pub use entries::{Entry, Format};
pub use journals::write_result;
pub use limits::{MAX_LINE, MAX_LINES};
pub use loading::{Loaded, load_result, load_result_after_head};
pub use migration::migrate_result;
pub use results::ResultFile;
pub use survey::read_event;
pub use verdicts::{Checked, Part};
pub use writing::write_event;
