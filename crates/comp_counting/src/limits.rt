//! The limits of flock atoms and of their leaves.

/// The greatest power of a flock atom.
pub const POWER_LIMIT: u32 = 39;

/// The greatest place of the state before the full one.
pub const PLACE_LIMIT: u16 = 100;
