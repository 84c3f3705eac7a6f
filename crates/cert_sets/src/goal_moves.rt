//! A leaf with the moves that layers list.

ghost use Rattle.std.specs.Prelude.{◌≡◌, IfOk};
ghost use Rattle.pop_leaf.specs.LeafModel.{IsLeaf};
ghost use Rattle.cert_sets.specs.Layered.{layered};

use crate::listed::listed_moves;
use cert_base::Layer;
use pop_io::{List, NoMemory};
use pop_leaf::{Leaf, hushed_leaf};
use std::alloc::Global;

/// A leaf, layers of some of its moves, and the leaf that keeps these moves alone.
#[derive(Clone, Copy)]
pub struct GoalMoves<'a> {
    pub leaf: &'a Leaf,
    pub layers: &'a List<Layer>,
    pub kept: &'a Leaf,
    ghost formed: { IsLeaf leaf.now },
    ghost alone: { kept.now ≡ layered leaf.now layers.now },
}

/// The leaf in which the moves that the layers list are kept and all others are silent.
pub fn kept_leaf(alloc: Global, leaf: &Leaf, layers: &List<Layer>) -> Result<Leaf, NoMemory>
    ensures formed { IsLeaf leaf.now }
    ensures kept { IfOk result (λ made. made ≡ layered leaf.now layers.now) }
{
    // What the invariant says is known from here on.
    let _formed = leaf.state_count();
    let moves = listed_moves(alloc, layers.as_slice())?;
    hushed_leaf(alloc, leaf, moves.as_slice())
}
