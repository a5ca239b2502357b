//! A ticket lock over a value that keeps a journal.
//!
//! The threads that share the value have seats. A seat enters a turn, is given the value, adds
//! entries and leaves. What it is given begins with all that it has seen, and once all seats are
//! joined, each entry that was added is exactly one seat's own. A seat can be split and joined, so
//! that each thread has one.
//!
//! The value implements `Journalled`. The table has three words (the count of entries, the next
//! ticket, the ticket that is served) and one slot for the value; a seat has no bytes beside its
//! weight and, while inside, a count. Only `Turn::new` takes memory. Only `enter` may wait: it
//! spins a little and then sleeps on the word that says who is served. Nothing is claimed of
//! progress.
//!
//! The rule that each step keeps is in specs/Rule.antt, what contracts see of a seat in
//! specs/Seats.antt.
#![tactic(auto)]

mod journal;
mod limits;
mod rule;
mod steps;
mod turn;

pub use journal::Journalled;
pub use limits::MAX_SEATS;
/// The one error: out of memory.
pub use std::alloc::AllocError as NoMemory;
pub use turn::{Turn, TurnSeat};
