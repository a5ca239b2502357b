//! The lines of a survey as JSON: definitions and messages that come in, and replies that go out.
//!
//! Lines are read with `serde_json`, names kept with `indexmap`, and numbers written with `itoa`. `read_definition` gives the
//! definition of a line, or its first fault; `read_message` gives the message of a line, and `read_vector` the vector of a values
//! line, or says that it is none; `write_reply` appends the line of a reply. The forms are definitions over JSON values: a line is
//! a message exactly where its value is of a form, and the line of a reply is the compact text of the reply's value, whose objects
//! have their members in byte order of the names. Only reading takes memory.
//!
//! Inside: `members` looks into objects with a fixed number of members, `definition_form` reads what a definition line says,
//! `names` tests and `by_name` keeps names, `writing` writes numbers and arrays.
#![tactic(auto)]

mod by_name;
mod definition_faults;
mod definition_form;
mod definitions;
mod members;
mod messages;
mod names;
mod replies;
mod vectors;
mod writing;

pub use definition_faults::{
    DefinitionFault, DefinitionStop, MAX_DEFINITION, MAX_NAME, MAX_RESPONDENTS,
};
pub use definitions::{Definition, read_definition};
pub use edges::NoMemory;
pub use messages::{Hello, Message, read_message};
pub use replies::{MAX_REPLY, Reply, Word, write_reply};
pub use vectors::read_vector;
