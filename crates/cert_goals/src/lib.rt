//! Goals: layers of some moves of a leaf, sets of states that stay once all agents are in them, and a tree.
//! It stands on `cert_layers`, `cert_sets` and `cert_tree`.
//! The layer above uses: `check_goal` accepts exactly valid goals, and `valid_goals_hold` says what they give.
#![tactic(auto)]

mod fault;
mod goal;
mod law;
mod layers;

pub use cert_sets::{SetFault, listed_moves};
pub use fault::GoalWhy;
pub use goal::check_goal;
pub use law::{facts_without_sets, goals_hold, valid_goals_hold};
