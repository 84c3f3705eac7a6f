//! How a run is made: its kind, its workers, shards, turns and seed.
//! It stands on `pop_io`, which has the limits of workers and shards.
//! The layer above uses: a `RunSpec` whose numbers are `IsWithinLimits` is one that a run can be made by.
#![tactic(auto)]

mod kind;
mod spec;

pub use kind::RunKind;
pub use spec::{MEETING_LIMIT, RunSpec, SEED_LIMIT, TURN_LIMIT, WATCHED_WORKERS};
