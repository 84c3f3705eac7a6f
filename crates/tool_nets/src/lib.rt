//! The commands of predicates and nets, each a file: what it gives for the lines of its input.
//! It stands on `tool_bundles`, and on the calls below that compile and write bundles.
//! The layer above uses: each call gives only outputs that the command's definition in `specs` allows.
#![tactic(auto)]

mod compile;
mod eval;
mod play;

pub use compile::compile_input;
pub use eval::eval_input;
pub use play::{MEETINGS_LINE, play_input};
