//! Runs that an observer stops within a round once it has seen a terminal crowd, and runs written while they are made.
//! It stands on `pair_workers`, `agent_field`, `terminal_test` and `run_text`.
//! The layer above uses: `push_run` makes a run by `IsWrittenRunOfUntil`, `push_run_alone` by `IsWrittenRunUntil`.
#![tactic(auto)]

mod alone;
mod context;
mod laws;
mod limits;
mod missing;
mod observe;
mod round;
mod sink;
mod threads;
mod written;

pub use alone::push_run_alone;
pub use laws::whole_runs_are_watched;
pub use limits::LOOKS_A_ROUND;
pub use sink::WrittenRounds;
pub use written::push_run;
