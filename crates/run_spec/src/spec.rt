//! The options of a run. The limits of workers and shards are those of `pop_io`.

/// The greatest number of turns of each worker.
pub const TURN_LIMIT: u64 = 1_000_000;

/// The greatest number of workers times turns.
pub const MEETING_LIMIT: u64 = 2_000_000;

/// The greatest seed, 2^63 - 1.
pub const SEED_LIMIT: u64 = 9_223_372_036_854_775_807;

/// The most workers of a watched run: one of the 64 seats of a field is the observer's.
pub const WATCHED_WORKERS: u16 = 63;

/// The options of a run: how many workers and shards, how many meetings each worker may make at
/// most, and the seed of their picks.
#[derive(Clone, Copy, PartialEq, Eq)]
pub struct RunSpec {
    pub workers: u16,
    pub shards: u32,
    pub turns: u64,
    pub seed: u64,
}
