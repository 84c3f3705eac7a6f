//! A proof that a net computes a predicate.

use crate::layer::Layer;
use crate::node::Node;
use pop_io::List;
use pres_ast::Pred;

/// The proof for one leaf: its predicate, its layers, and a tree in preorder for each value of the predicate.
#[derive(Drop)]
pub struct LeafProof {
    pub pred: Pred,
    pub layers: List<Layer>,
    pub on_true: List<Node>,
    pub on_false: List<Node>,
}

/// What an execution is to reach from the inputs that give one value: layers of some moves, sets of states with this
/// output that agents don't leave, and a tree in preorder. No set stands for the one of all states with this output.
#[derive(Drop)]
pub struct Goal {
    pub layers: List<Layer>,
    pub sets: List<List<u16>>,
    pub nodes: List<Node>,
}

/// One proof for each leaf of a net.
#[derive(Drop)]
pub struct Proof {
    pub leaves: List<LeafProof>,
}
