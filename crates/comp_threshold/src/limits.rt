//! The limit of a built leaf.

/// The greatest width of a leaf.
pub const WIDTH_LIMIT: u64 = 80;
