//! From leaves to the net: if each leaf comes to a set of right crowds that no step leaves, the net is stably right.
//! It stands on `theory_fair` and `theory_random`; a leaf's sets are those of `theory_sets`, or it falls
//! silent (`cert_base`).
//! The layer above uses: the law of such leaves, silent ones among them.
#![tactic(auto)]

mod law;

pub use law::{
    LeafGoals, fairness_of_any_net, flickering_is_right, leaf_goals_join, silent_and_stable_leaves,
};
