//! The check of a proof's tree of cases, and which node is refused first, and why.
//! It stands on `cert_linear` and `cert_traps`.
//! The layer above uses: `check_tree` and `check_goal_tree` accept exactly trees that close, and say what they leave.
//! A tree closes exactly when no node is refused (`refusal_law`).
#![tactic(auto)]

mod fault;
mod law;
mod nodes;
mod room;
mod size;
mod stack;
mod tree;
mod walk;

pub use fault::{TreeFault, TreeWhy};
pub use law::refusal_law;
pub use tree::{check_goal_tree, check_tree};
