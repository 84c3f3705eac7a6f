//! Trees of cases, and layers by kinds of moves, for a leaf in which leaders turn the others.
//! It stands on `cert_base`.
//! The layer above uses: `tree`, `multipliers`, `mix`, `company`, `picked` and `layer` are the defined ones;
//! `leader_tree-closes` says when a tree closes, and `sorted_layers-valid` when layers are valid.
//! `two_to`, `is_set` and `power_of` are of powers of two, and `all_bits` makes a number of its bits.
//!
//! Agents start as leaders, and each move leaves a leader. So the leaders are a trap that is marked at the start, and
//! one is left at the end. Any two leaders can meet, so at a terminal end there is no other. Each leader in turn is
//! absent or that one; then what can meet it is absent, and what is left has its output, or the values at the end
//! don't agree with the input.
#![tactic(auto)]

mod mixing;
mod numbers;
mod others;
mod preorder;
mod range;
mod sorting;

pub use mixing::{MULTIPLIER_LIMIT, MixParts, mix, mixed, multipliers, picked, terms, weighed};
pub use numbers::{is_set, power_of, two_to};
pub use others::company;
pub use preorder::tree;
pub use range::RANGE_LIMIT;
pub use sorting::layer;
