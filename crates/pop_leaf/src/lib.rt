//! Population protocols, and the model of nets of them: what a step, a reachable and a terminal crowd are.
//! It stands on `pop_io`.
//! The layer above uses: a `Leaf` keeps the rules, and its `react` and `output` are the model's. `hushed_leaf` makes
//! exactly the leaf in which some moves are kept and all others are silent.
#![tactic(auto)]

mod copies;
mod fault;
mod hushed;
mod item;
mod law;
mod leaf;
mod limits;
mod marks;
mod moves;
mod parts;
mod rules;

pub use copies::copy_texts;
pub use fault::LeafFault;
pub use hushed::hushed_leaf;
pub use item::Item;
pub use law::leaves_are_hushed;
pub use leaf::{Leaf, Move};
pub use limits::{
    DEPTH_LIMIT, HELPER_LIMIT, ITEM_LIMIT, LEAF_LIMIT, MOVE_LIMIT, NARROW_STATE_LIMIT, STATE_LIMIT,
    WIDE_LEAF_LIMIT,
};
