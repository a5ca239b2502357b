//! Limits of dictionaries.
use criteria_model::MAX_INCREMENTS;

/// The most rows that a dictionary can have room for.
pub const MAX_ROWS: u32 = 65_536;

/// What a line holds at most: an entry for each column, and the constant.
pub const MAX_LINE: usize = MAX_INCREMENTS + 1;

/// Each number of a dictionary is below this in size.
pub const NUMBER_BOUND: u128 = 1 << 89;
