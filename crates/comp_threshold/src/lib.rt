//! A leaf that computes a threshold, and its proof.
//! It stands on `comp_trees`.
//! The layer above uses: `threshold` gives exactly the built leaf, and a proof valid for it and within the limits.
//!
//! *It ends.* First leaders meet, and leaders take from followers: one leader fewer, or the follower comes closer to
//! 0. Then leaders turn followers to true, then to false; a turned follower wakes no earlier layer, for another
//! leader that could change it could also meet the leader that turned it. *It ends right.* At a terminal end there is
//! one leader. If it answers the wanted value, all who answer otherwise could still meet it, and so are absent. If
//! not, the values at the end don't add up to a sum for which the predicate has that value: what the leader left has
//! no value, or one beyond the end of the range at which the leader stands.
#![tactic(auto)]

mod bounded;
mod building;
mod fault;
mod limits;
mod listing;
mod naming;
mod narrow;
mod node;
mod values;
mod weights;
mod whole;
mod wide;

pub use fault::ThresholdFault;
pub use limits::WIDTH_LIMIT;
pub use whole::threshold;
pub use wide::width;
