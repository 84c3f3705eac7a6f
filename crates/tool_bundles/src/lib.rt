//! What several commands read: names, predicates, counts, nets with their input crowds, and bundles.
//! It stands on `tool_texts`, and on the readers of files below.
//! The layer above uses: each call gives what its step in `specs` gives for a line, or the refusal of its first fault.
#![tactic(auto)]

mod bundle;
mod last;
mod named;
mod start;

pub use bundle::{begin, bundle_of_line};
pub use last::last_of;
pub use named::{counts_in, names_of, pred_of};
pub use start::{Start, net_and_start};
