//! The limits of a watched run.

/// The most looks of the observer in a round.
pub const LOOKS_A_ROUND: u16 = 16;

/// How often the observer asks, before a look, whether the workers have come far enough.
pub(crate) const POLLS_A_LOOK: u32 = 10_000;
