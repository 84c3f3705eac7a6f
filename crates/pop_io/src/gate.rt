//! The workers of a run, and where a test may hold one.

/// The greatest number of workers of a run.
pub const WORKER_LIMIT: u16 = 64;

/// The greatest number of shards that the workers share.
pub const SHARD_LIMIT: u32 = 1_024;

/// Called during a run. It has no clause: whatever a gate does, a run keeps its promises.
pub trait Gate: Sync {
    /// A worker calls it before each of its meetings, an observer before each look; `turn` counts from 1 in each round.
    fn pass(&self, worker: u16, turn: u64);

    /// A meeting of the shared field calls it under its locks and before it reads a word.
    fn held(&self, seat: u16, call: u64);
}

/// The gate that holds nobody.
#[derive(Clone, Copy)]
pub struct OpenGate;

impl Gate for OpenGate {
    fn pass(&self, _worker: u16, _turn: u64) {}

    fn held(&self, _seat: u16, _call: u64) {}
}
