//! The limit of a net with many leaves.

/// The greatest width of a leaf that isn't wide.
pub const NARROW_WIDTH_LIMIT: u64 = 42;

/// The most atoms that a fault can count, in a `u32`.
pub(crate) const COUNT_LIMIT: usize = (1 << 32) - 1;
