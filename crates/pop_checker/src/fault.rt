//! Why a proof is not valid.

use cert_layers::LayerWhy;
use cert_tree::TreeWhy;

/// The first part that is not valid: leaf by leaf the layers, the tree for true and the tree for false; last the
/// predicate.
#[derive(Clone, Copy, PartialEq, Eq)]
pub enum Rejected {
    /// The layers of a leaf.
    Layers {
        leaf: u8,
        why: LayerWhy,
    },
    /// A node of the tree of a leaf for this value of its predicate.
    Tree {
        leaf: u8,
        value: bool,
        node: u32,
        why: TreeWhy,
    },
    /// The leaves' predicates combine into another one.
    Predicate,
}
