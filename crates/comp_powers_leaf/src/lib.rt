//! Leaves that compute `a(1)*x(1) + .. < c` with some three states for each bit, for all coefficients and bounds.
//! It stands on `comp_trees`.
//! The layer above uses: `powers_leaf` gives exactly the built leaf; `powers_range` finds the least range that
//! suffices, and `powers_states` says how many states the leaf has for it (`range-suffices` joins both to `IsPowers`).
#![tactic(auto)]

mod leaf;
mod listing;
mod meeting;
mod owed;
mod placing;
mod range;
mod role;

pub use leaf::powers_leaf;
pub use owed::owed_by;
pub use placing::{powers_states, roles};
pub use range::powers_range;
pub use role::{Role, answer};
