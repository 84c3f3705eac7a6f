//! Why a proof with goals is not valid.

use crate::fault::Rejected;
use cert_goals::GoalWhy;

/// The first part that is not valid: leaf by leaf, a leaf's goal for true before its goal for false; last the
/// predicate.
#[derive(Clone, Copy, PartialEq, Eq)]
pub enum StableRejected {
    /// The proof of a leaf that falls silent, or the predicate.
    Plain(Rejected),
    /// The goal of a leaf for this value of its predicate.
    Goal { leaf: u8, value: bool, why: GoalWhy },
}
