//! Limits.

/// The most seats that a turn can have.
pub const MAX_SEATS: u32 = 64;
