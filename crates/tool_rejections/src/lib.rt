//! The line of a rejection: the words that say which part of a proof fails first, and why.
//! It stands on `tool_texts`, and on the faults of `pop_checker`.
//! The layer above uses: a rejection is told in the line that `specs` defines, as a text or as an answer to a fault.
#![tactic(auto)]

mod fault;
mod rejection;

pub use fault::rejection_of;
pub use rejection::rejection_output;
