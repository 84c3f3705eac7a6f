//! The limits of a field. Those of agents are in `pop_crowd`, and that of shards is in `pop_io`.

/// The most seats of a field, which has at least one.
pub const SEAT_LIMIT: u16 = 64;

/// The most looks that a seat makes.
pub const LOOK_LIMIT: u16 = 64;

/// The most meetings that a seat logs.
pub const LOG_LIMIT: u64 = 1_099_511_627_776;
