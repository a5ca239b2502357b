//! The commands of the program.
//!
//! `command` does what the program's words say over any source, sink and door: it runs a script by `run_script`, desks at once and
//! eliminators beside them, runs a sample survey beside eliminators, serves the connections of a port, or does what `plain_command`
//! does, which waits for nobody: it checks a file of claims or the result of a survey, copies a result into the second format, ranks
//! the alternatives of a table, or runs a sample survey. What is written, and with which status a command ends, is fixed by the words
//! and the source's bytes, but for the replies of a run, each of which is right in the one journal of its respondent's survey; a
//! command fails only where a count of faults rose. The calls of `survey_run` and `survey_hall` that it stands on are given on.
//!
//! Inside: `input_lines` reads the definition of the first line, and `rank_input` ranks what follows it, a values line and a table, by the
//! names that `survey_names` gives; `rank_texts` has the texts that answer it, and `sample_texts` the line of a sample survey.
//! `script_runs` runs a script, and `script_texts` writes the replies to its lines; `serving` serves the surveys of a definition.
#![tactic(auto)]

mod commands;
mod input_lines;
mod plain_commands;
mod rank_input;
mod rank_texts;
mod sample_runs;
mod sample_texts;
mod script_runs;
mod script_texts;
mod serving;
mod statuses;
mod survey_names;

pub use commands::{Ended, command};
pub use plain_commands::plain_command;
pub use script_runs::{Stop, run_script};
pub use survey_hall::{Hall, ServeEnd, ServeStop, Served, serve, serve_connection};
pub use survey_run::{RunEnd, run_sample};

#[cfg(test)]
mod tests;
