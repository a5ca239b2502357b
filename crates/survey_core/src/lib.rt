//! The events of a survey, which of them may follow a history, and what a history comes to.
//!
//! `Core` stands for a legal history of a model. `allowed` tests whether an event may follow, and
//! names the first part that it lacks; `apply` puts it at the end; the other calls say what the
//! history comes to. `laws` has the laws of legal histories. All memory is taken by `Core::new`.
//!
//! The history has no bytes at run time: it is a `Vec` of snapshots, so a count. What a call needs
//! of it stands in marks (`marks`): how each class is ranked and whether it was issued, what became
//! of each question, and counts of ranked classes, open questions and leading classes that are
//! ranked or issued. So a call costs the same after any history, but for the tests of certificates
//! over the answers. A mark says on how many answers it rests: an elimination on the last one that
//! it cites, a commit on its own, a close on those that stood when it was made; the withdrawal of
//! answer n takes out what rests on n answers, in one walk over classes and questions.
#![tactic(auto)]

mod broken;
mod events;
pub mod laws;
mod limits;
mod marks;
pub mod points;
mod questions;
mod survey;

pub use broken::Broken;
pub use events::Event;
pub use limits::{MAX_DESKS, MAX_EVENTS, MAX_OPEN_QUESTIONS, MAX_WORKERS, spent};
pub use questions::QuestionState;
pub use survey::Core;
