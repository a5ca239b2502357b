//! Connections, each a session at a desk of a respondent's survey; those of different desks go on at once.
//!
//! `Hall::build` makes a survey for each respondent of a definition. Its desks rest behind a lock each. `serve_connection` reads a
//! hello and tests it, waits for the desk, welcomes and runs the session. Its clause `IsServed` says of each answer what was read
//! and written, and of a session at which journal it began, what the desk had seen at the end, and that the replies are those of one
//! conversation in it. Until its hello has passed the tests a connection holds no desk; when it ends, its desk is free again.
//!
//! `serve` accepts connections from a door and serves each in a thread, beside eliminators; its answer has what each was served.
//!
//! Memory for surveys, desks and eliminators is taken by `Hall::build`. A connection takes that of its lines before its desk is got,
//! and then only what a message needs while it is read and what a withdrawal may need; `serve` takes that of its lists first.
//!
//! Inside: `greetings` reads and tests a first line, `desk_seats` and `eliminator_seats` have what rests behind a lock, and
//! `connection_threads` has the threads of `serve`, which name themselves in `served_places` when they have served.
#![tactic(auto)]

mod connection_threads;
mod connections;
mod desk_seats;
mod eliminator_seats;
mod greetings;
mod halls;
mod served;
mod served_places;
mod serving;
mod texts;

pub use connections::serve_connection;
pub use halls::Hall;
pub use served::Served;
pub use serving::{MAX_CONNECTIONS, ServeEnd, ServeStop, serve};

#[cfg(test)]
mod tests;
