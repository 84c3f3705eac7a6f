//! Workers on threads that let agents meet by their picks, round by round.
//! It stands on `run_picks` and `agent_field`.
//! The layer above uses: `next_round` makes a round by `IsRoundFrom`, and the rounds of `run_all` are a run by `IsRun`.
#![tactic(auto)]

mod all;
mod round;
mod round_end;
mod round_start;
mod seats;
mod shift;
mod signals;
mod work;

pub use all::run_all;
pub use round::{next_round, run_round};
pub use round_end::RoundEnd;
pub use round_start::RoundStart;
pub use run_picks::{
    End, Picker, ROUND_TURNS, RoundSink, RunContext, RunEnd, end_of, first_pickers, goes_on,
    meet_next, run_alone, run_into,
};
pub use seats::{meetings_made, open_round, take_in};
pub use shift::Shift;
pub use signals::Signals;
pub use work::{Worker, work_all};
