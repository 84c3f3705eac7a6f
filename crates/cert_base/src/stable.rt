//! Proofs that a net computes a predicate, of which some leaves may go on changing.

use crate::proof::{Goal, LeafProof};
use pop_io::List;
use pres_ast::Pred;

/// A goal for each value of a leaf's predicate.
#[derive(Drop)]
pub struct LeafGoals {
    pub pred: Pred,
    pub on_true: Goal,
    pub on_false: Goal,
}

/// A leaf's part of a proof: it falls silent, or it comes to goals.
#[derive(Drop)]
pub enum StablePart {
    Silent(LeafProof),
    Stable(LeafGoals),
}

/// One part for each leaf of a net.
#[derive(Drop)]
pub struct StableProof {
    pub leaves: List<StablePart>,
}
