//! The commands of proofs, each a file: what it gives for the lines of its input.
//! It stands on `tool_rejections`, and on the calls below that settle and show.
//! The layer above uses: each call gives only outputs that the command's definition in `specs` allows.
#![tactic(auto)]

mod certified;
mod check;
mod settle;
mod show;

pub use check::check_input;
pub use settle::settle_input;
pub use show::show_input;
