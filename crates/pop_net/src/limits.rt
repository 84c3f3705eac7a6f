//! The limits of packed words.

/// The bits of a word.
pub const WORD_BITS: usize = 64;

/// The bits of a word's lane.
pub const LANE_BITS: usize = 8;

/// The bits of a word's lane in a wide net.
pub const WIDE_LANE_BITS: usize = 16;
