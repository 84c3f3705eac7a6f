//! The check of a goal's sets of states: all states have the goal's value as their output, and the set stays.
//! It stands on `theory_sets`, `pop_leaf`, `cert_layers` and `cert_traps`.
//! The layer above uses: `checked_sets` accepts exactly good sets, and else names the first that fails, and why.
#![tactic(auto)]

mod escape;
mod fault;
mod goal_moves;
mod listed;
mod outputs;
mod sets;
mod sleep;
mod stay;
mod wake;

pub use fault::SetFault;
pub use goal_moves::{GoalMoves, kept_leaf};
pub use listed::listed_moves;
pub use sets::checked_sets;
