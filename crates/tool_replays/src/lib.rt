//! The command `replay`, with the flag `--watched` or without: what it gives for the lines of its input.
//! It stands on `tool_courses`, and on the journals of `pop_journal`.
//! The layer above uses: the call gives only outputs that the command's definition in `specs` allows.
#![tactic(auto)]

mod replay;

pub use replay::{JOURNAL_LINE, replay_input};
