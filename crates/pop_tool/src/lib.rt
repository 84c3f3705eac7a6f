//! The top call: the words and the bytes that a source has left go in, a text goes to a sink, and a status comes back.
//! It stands on the crates of commands, and on `tool_runs`, which makes what was prepared.
//! The layer above uses: what the sink gains and the status are those of an answer of `specs/Answer.antt`.
#![tactic(auto)]

mod calm;
mod law;
mod perform;
mod prepare;
mod table;
mod tool;
mod write;

pub use calm::run_calm;
pub use law::{check_is_meant, compiled_is_certified, one_answer, replay_holds, shown_is_checked};
pub use pop_words::WORD_LIMIT;
pub use tool::{is_plain, run_plain, run_tool};
pub use tool_texts::Status;
