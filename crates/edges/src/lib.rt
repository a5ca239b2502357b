//! The edges of the program: where bytes come from and where they go, a reader of lines over a
//! source, and a text that is written to a sink.
//!
//! Each source and sink carries a count of its faults. A call fails only where that count rose, and
//! a call that succeeds leaves it as it was. An end may also show its bytes: a source those still
//! to come, a sink those put so far.
//!
//! `MemSource` and `MemSink` are over memory and fail at the calls that a test names; `QuietSource`
//! and `QuietSink` can't fail; `StdSource` and `StdSink` are the standard ends, and a `TcpDoor` gives the
//! `TcpEnd`s of connections: these show nothing and are trusted. `Lines` has one buffer, taken by
//! `reserve`: the longest line, its line end and 64 KiB of read-ahead; a line is a slice of it. `Rest` is
//! what such a reader kept and then its source, as one source. A `Gate` is called at points in the work,
//! at which a `ScriptGate` may hold a test. `Text` has a fixed room. `laws` says that a text splits into
//! lines in one way.
#![tactic(auto)]

mod doors;
mod ends;
mod gates;
pub mod laws;
mod line_reader;
mod memory_ends;
mod quiet_ends;
mod rest;
mod standard_ends;
mod tcp_ends;
mod text_buffer;

pub use doors::{Door, DoorEnds, MemDoor};
pub use ends::{Failed, Sink, Source};
pub use gates::{Gate, GatePoint, Hold, OpenGate, ScriptGate};
pub use line_reader::{LineGot, Lines, take_behind};
pub use memory_ends::{MemSink, MemSource};
pub use quiet_ends::{QuietSink, QuietSource};
pub use rest::Rest;
pub use standard_ends::{StdSink, StdSource};
pub use std::alloc::AllocError as NoMemory;
pub use tcp_ends::{TcpDoor, TcpEnd};
pub use text_buffer::{Text, put_bytes};

#[cfg(test)]
mod tests;
