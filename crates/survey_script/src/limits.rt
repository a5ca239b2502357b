/// The most lines of a script after its definition line.
pub const MAX_SCRIPT_LINES: u32 = 65_536;

/// The most sessions of a script.
pub const MAX_SESSIONS: usize = 64;
