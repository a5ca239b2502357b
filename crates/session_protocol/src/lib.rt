//! Sessions: lines of messages come in, the lines of their replies go out.
//!
//! `handle` answers one line after the hello, and `handle_message` its message: by one exchange with the respondent, as
//! `survey_replies` has it. A line that is no message, and a second hello, are refused and change nothing. `session` reads lines from a
//! source and writes the texts of their replies to a sink, up to the first bye, the end of input, a line that is too long, as many
//! messages as are allowed, a fault, or out of memory. Its clause `IsSession` names the lines with what came of each: they are the
//! front of the text that lay ahead, their exchanges are a conversation with the respondent, and what was written are the replies'
//! texts in order, and then the line of a refusal where the session ended by one. `session_counted` counts the replies too.
//! `write_texts` writes the texts of many replies. `laws` says that a text has one way to be read by a session.
#![tactic(auto)]

mod handling;
pub mod laws;
mod sessions;
mod writing;

pub use handling::{handle, handle_message};
pub use sessions::{CountedEnd, MAX_MESSAGES, SessionEnd, session, session_counted};
pub use writing::{write_text, write_texts};
