//! What a run is, its picks, and runs by one worker, round by round.
//! It stands on `pop_crowd`, `terminal_test`, `run_spec`, `rand_xoshiro` and `rand_core`.
//! The layer above uses: `Picker::pick` is Picks, and `run_into` gives the rounds of the only run by `IsTakenRunUntil`.
#![tactic(auto)]

mod alone;
mod context;
mod divisor;
mod ends;
mod examples;
mod law;
mod meet;
mod picker;
mod pickers;
mod run_loop;

pub use alone::{End, KeptRounds, ROUND_TURNS, RunEnd, play_round, run_alone};
pub use context::RunContext;
pub use ends::{end_of, goes_on};
pub use examples::{pick_examples, run_examples};
pub use law::picks_are_uniform;
pub use meet::meet_next;
pub use picker::Picker;
pub use pickers::first_pickers;
pub use run_loop::{RoundSink, run_into};
