//! A leaf that computes `a(1)*x(1) + .. < c` with some three states for each bit, and its proof, for all coefficients
//! and bounds.
//! It stands on `comp_powers_leaf` and `comp_trees`.
//! The layer above uses: `powers_range` finds the least range that suffices, and `powers_states` says how many states
//! the leaf has for it; `powers` gives exactly the built leaf, and a proof that is valid for it and within the limits.
#![tactic(auto)]

mod law;
mod multipliers;
mod roled;
mod trees;
mod values;
mod weights;
mod whole;

pub use comp_powers_leaf::{powers_range, powers_states};
pub use law::powers_are_right;
pub use whole::powers;
