//! The limits of the numbers in words, and the defaults of options.

/// The most eliminators.
pub const MAX_ELIMINATORS: u32 = 16;

/// How many eliminators there are where no option says it.
pub const DEFAULT_ELIMINATORS: u32 = 2;

/// The most connections that are served, and how many where no option says it.
pub const MAX_CONNECTIONS: u32 = 65_536;

/// The highest port.
pub const MAX_PORT: u32 = 65_535;

/// The highest seed.
pub const MAX_SEED: u32 = 2_147_483_647;

/// The most level counts of a shape.
pub const MAX_SHAPE_COUNTS: usize = 99;

/// The highest level count and the highest degree of a shape.
pub const MAX_SHAPE_NUMBER: u32 = 999;
