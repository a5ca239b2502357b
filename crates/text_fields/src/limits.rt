//! The limit of the numbers in certificates.

/// What a certificate number is below in size.
pub(crate) const CERTIFICATE_BOUND: u128 = 1 << 96;
