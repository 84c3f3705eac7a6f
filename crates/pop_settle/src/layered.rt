//! What the steps of settling have in common.

ghost use Rattle.std.specs.Prelude.{◌<◌, length, All};
ghost use Rattle.pop_leaf.specs.LeafModel.{IsLeaf};
ghost use Rattle.pop_settle.specs.Search.{AreRunEnds};

use cert_base::{Layer, Proof};
use pop_net::{Leaf, Net};

/// A net and its proof.
#[derive(Clone, Copy)]
pub(crate) struct Layered<'a> {
    pub(crate) net: &'a Net,
    pub(crate) proof: &'a Proof,
}

/// A layer, its leaf, and its number there.
#[derive(Clone, Copy)]
pub(crate) struct LayerPlace<'a> {
    pub(crate) leaf: u8,
    pub(crate) number: usize,
    pub(crate) layer: &'a Layer,
}

/// Moves of a leaf, with an end for each: up to there all moves have the same first state.
#[derive(Clone, Copy)]
pub(crate) struct MoveList<'a> {
    pub(crate) leaf: &'a Leaf,
    pub(crate) moves: &'a [u32],
    pub(crate) ends: &'a [usize],
    ghost formed: { IsLeaf leaf.now },
    ghost in_range: { All (λ step. step < length leaf.now.moves) moves.now },
    ghost runs: { AreRunEnds leaf.now moves.now ends.now },
}
