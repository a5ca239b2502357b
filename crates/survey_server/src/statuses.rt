//! The statuses that a command ends with.

/// Its work is done.
pub(crate) const DONE: u8 = 0;

/// The input was refused, and the line that says so was written.
pub(crate) const REFUSED: u8 = 1;

/// The words are no command, and the usage line was written.
pub(crate) const USAGE_SHOWN: u8 = 2;

/// The source failed.
pub(crate) const READ_FAULT: u8 = 3;

/// The sink failed.
pub(crate) const WRITE_FAULT: u8 = 4;

/// Out of memory.
pub(crate) const NO_MEMORY: u8 = 5;

/// The door failed.
pub(crate) const DOOR_FAULT: u8 = 6;
