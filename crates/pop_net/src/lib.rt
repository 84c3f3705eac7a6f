//! Nets of population protocols, and their packed words.
//! It stands on `pop_leaf`, whose names it hands on.
//! The layer above uses: `react`, `output` and `start` are the model's, and valid words give valid words.
#![tactic(auto)]

mod combination;
mod copies;
mod examples;
mod fault;
mod lanes;
mod limits;
mod net;
mod open_trees;
mod operands;
mod rules;
mod words;

pub use combination::combination_fault;
pub use examples::{net_examples, reaction_examples, step_examples};
pub use fault::{CombinationFault, NetFault};
pub use net::{Net, Word};
pub use open_trees::OpenTrees;
pub use pop_leaf::{
    HELPER_LIMIT, ITEM_LIMIT, Item, LEAF_LIMIT, Leaf, LeafFault, MOVE_LIMIT, Move,
    NARROW_STATE_LIMIT, STATE_LIMIT, WIDE_LEAF_LIMIT,
};
pub use rules::wide_leaf;
