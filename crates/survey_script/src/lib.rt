//! Scripts: a definition line, and then sessions from hello to bye, one after another.
//!
//! `read_script` reads a whole script from a source, or names the first line that fails and what is wrong with it. Which script a
//! text is, is a function (`script_of`), so a text is one script or has one first fault. A `Script` is within the limits: its
//! respondents and desks exist, each session goes up to its one bye, and there are at most [`MAX_SESSIONS`] sessions and
//! [`MAX_SCRIPT_LINES`] lines after the definition. `admit` makes the tests on a hello in their order.
//!
//! Inside: `reading` goes from line to line, and `sessions_so_far` says what a line does to the sessions before it. `laws` says that
//! the lines of a text are those that `edges` splits it into, that a text is a script exactly where its lines are a definition line
//! and those of sessions, and that the lines before the one that fails don't.
#![tactic(auto)]

mod hellos;
pub mod laws;
mod limits;
mod reading;
mod scripts;
mod sessions_so_far;
mod stops;

pub use hellos::{Admitted, HelloFault, admit};
pub use limits::{MAX_SCRIPT_LINES, MAX_SESSIONS};
pub use reading::read_script;
pub use scripts::{Script, ScriptSession};
pub use stops::{ScriptPart, ScriptStop};
