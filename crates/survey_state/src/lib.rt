//! A survey's state: its journal, what the journal comes to, and memory for what may follow.
//!
//! `State` keeps a legal journal with the `Core` whose history it is. `offer` puts an event at the
//! end where it may follow, and else names the first part that it lacks. At hand are the point of
//! the last answer that stands, its question, and the number of changes of the answers.
//!
//! It keeps a `Pool` of the model's classes too, whose marks say what the journal ranks and asked:
//! so `first_unranked`, `first_due` and `job` look at few classes. `keep_met` keeps two vectors that
//! rank a class oppositely, with the number of answers that both meet; a withdrawal lowers it.
//!
//! Memory is taken by `State::new` and `make_room` only: there is always enough for all events that
//! may follow up to the next withdrawal, which `make_room` prepares.
//!
//! An `Access` is a way to a state in turns: `begin` gives it out, `finish` takes it back. The calls
//! of a survey work over any: `next_by`, `answer_by`, `values_by` and `withdraw_by`, each one of the
//! reply law. A turn names the class on which its reply rests; whether this is open is found out
//! between turns, on a copy of the answers; the next turn eliminates it or replies. So no turn is
//! held while anything is solved, and a class is looked at again only where the journal grew.
//!
//! `Solo` is a survey of one desk, whose calls wait for nobody.
//!
//! Inside: `calls` takes the turns of any call, `findings` looks at a class between them,
//! `recording` puts events at the end; `next`, `answer`, `values` and `withdrawal` have the calls.
#![tactic(auto)]

mod access;
mod answer;
mod calls;
mod findings;
mod journal;
pub mod laws;
mod next;
mod offer;
mod pool;
mod recording;
mod solo;
mod state;
mod values;
mod withdrawal;

pub use access::Access;
pub use answer::answer_by;
pub use next::next_by;
pub use offer::Offer;
pub use solo::Solo;
pub use state::State;
pub use values::values_by;
pub use withdrawal::withdraw_by;
