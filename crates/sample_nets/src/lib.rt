//! The nets that tests speak of, each once.
//! It stands on `pop_io` and `pop_net`.
//! Tests use it: how many variables and leaves a net has. `None` says that memory ran out.
#![tactic(auto)]

mod nets;
mod parts;

pub use nets::{flock, helped, majority, pair_of_leaves, wide};
pub use parts::{leaf_of, list, net_of, numbered, step, texts};
