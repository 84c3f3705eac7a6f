//! A leaf that computes a remainder, and its proof, for all coefficients, moduli and rests.
//! It stands on `comp_trees`.
//! The layer above uses: `remainder` gives exactly the built leaf, and a proof valid for it and within the limits.
//!
//! Each agent starts as a leader, with the remainder of what it stands for. When two leaders meet, the first keeps the
//! sum and the second becomes a follower, so at last one leader is left; it turns the followers to its answer.
//!
//! *It ends.* A meeting of two leaders leaves one leader fewer; then the last leader turns each follower at most once.
//! *It ends right.* Leaders are a trap, so one is left, and it is the only one, since two would meet. Every meeting
//! keeps the sum of the leaders' remainders up to multiples of the modulus, so the last one has the remainder of the
//! whole and answers right, and no follower that answers otherwise is left.
#![tactic(auto)]

mod leaf;
mod listing;
mod modulus;
mod naming;
mod node;
mod weights;
mod whole;

pub use modulus::Modulus;
pub use whole::remainder;
