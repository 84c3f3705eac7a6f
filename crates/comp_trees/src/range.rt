//! The limit of powers of two.

/// The greatest power of the range of a leaf of powers.
pub const RANGE_LIMIT: u32 = 40;
