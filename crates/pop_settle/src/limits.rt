//! How long a settling may be.

/// The most takes that a proof's bound may allow for a crowd that is settled.
pub const TAKE_LIMIT: u128 = 8_000_000;
