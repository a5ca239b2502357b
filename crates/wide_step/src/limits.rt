//! Limits of exact steps.

/// Each factor of a step, and its divisor, is below this in size.
pub const FACTOR_BOUND: u128 = 1 << 120;

/// The quotient of a step, and each number of a greatest common divisor, is below this in size.
pub const QUOTIENT_BOUND: u128 = 1 << 126;
