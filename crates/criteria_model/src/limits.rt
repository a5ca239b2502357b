//! The limits of models, and of the numbers in certificates.

/// The most increments of a model, and so the most criteria.
pub const MAX_INCREMENTS: usize = 24;

/// The highest level of a criterion, which has one level more than increments.
pub const MAX_LEVEL: u8 = 25;

/// The most classes of a model.
pub const MAX_CLASSES: u32 = 16_384;

/// What the numbers of certificates are below in size: those of value vectors and the weights of cites by
/// their types.
pub const CERTIFICATE_BOUND: u128 = 1 << 96;
