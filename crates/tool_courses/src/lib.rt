//! What the commands of runs share: what a bundle's proof gives to a run, and what such a command prepares.
//! It stands on `tool_rejections`, and on `pop_settle`, which says where the runs of a net with goals end.
//! The layer above uses: what `prove` gives has the course that `specs` defines, and then the bundle's proof is valid.
#![tactic(auto)]

mod prepared;
mod proved;
mod run_end;

pub use prepared::{Case, PendingDemo, PendingRun, Prepared, Setting};
pub use proved::{Proved, prove};
pub use run_end::last_and_ending;
