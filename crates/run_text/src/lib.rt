//! The text of a journal: the lines that record a run, from its first to its last, and what may be wrong with them.
//! It stands on `terminal_test`, `base_lines` and `pop_words`.
//! The layer above uses: `push_run_line`, `push_round` and `push_end` add exactly the lines of `specs/Journal.antt`.
#![tactic(auto)]

mod fault;
mod last;
mod limits;
mod page;
mod write;

pub use fault::{JournalFault, JournalWhy, VerifyFault};
pub use last::{Last, Outcome};
pub use limits::MEETING_ROOM;
pub use page::Page;
pub use write::{
    push_end, push_last_line, push_meeting_numbers, push_round, push_rounds, push_run_line,
};
