//! The least layer in which two states are taken.

ghost use Rattle.std.specs.Prelude.{◌≡◌, ◌+◌, ◌*◌, ◌<◌, min, length, IfOk};
ghost use Rattle.std.specs.List.{slice_set};
ghost use Rattle.pop_leaf.specs.LeafModel.{IsLeaf};
ghost use Rattle.cert_layers.specs.Waking.{first_at, is_early, empty_table, IsWakingTable};

use pop_io::List;
use pop_net::{Leaf, STATE_LIMIT};
use std::alloc::{AllocError, Global};
use std::marker::Model;

/// The number of ordered pairs of states.
pub(crate) const PAIR_COUNT: usize = STATE_LIMIT * STATE_LIMIT;

/// The entry of two states that no move of a layer takes. It is above the number of every layer.
pub(crate) const NO_LAYER: u16 = u16::MAX;

/// For each ordered pair of states, row by row, the least layer with a non-silent move that takes them.
#[derive(Drop)]
pub(crate) struct PairTable {
    layers: List<u16>,
}

impl Model for PairTable {
    ghost use Rattle.std.specs.Prelude.{◌≡◌, List as Items, ℕ, length};
    ghost use Rattle.cert_layers.specs.declared.pairs.TheConstants.{PAIR_COUNT};

    ghost Value = { Items ℕ };

    ghost view = { λ t. t.layers };

    ghost invariant = { λ t. length t.layers ≡ PAIR_COUNT };
}

impl PairTable {
    /// Whether a layer before this one has a non-silent move that takes two states.
    pub(crate) fn is_early(&self, x: u16, y: u16, layer: u16) -> bool
        requires x_in { x < STATE_LIMIT }
        requires y_in { y < STATE_LIMIT }
        ensures { result ≡ is_early self.now layer x y }
    {
        self.first(x, y) < layer
    }

    /// The first layer with a non-silent move that takes two states.
    pub(crate) fn first(&self, x: u16, y: u16) -> u16
        requires x_in { x < STATE_LIMIT }
        requires y_in { y < STATE_LIMIT }
        ensures { result ≡ first_at self.now x y }
    {
        self.layers.as_slice()[x as usize * STATE_LIMIT + y as usize]
    }
}

/// The table of a leaf's moves and their layers.
pub(crate) fn pair_table(
    alloc: Global,
    leaf: &Leaf,
    layer_of_move: &[Option<u16>],
) -> Result<PairTable, AllocError>
    requires formed { IsLeaf leaf.now }
    requires long { length layer_of_move.now ≡ length leaf.now.moves }
    ensures { IfOk result (IsWakingTable leaf.now layer_of_move.now (length leaf.now.moves)) }
{
    let mut layers = no_layers(alloc)?;
    for t in 0..leaf.move_count() {
        enter_move(&mut layers, leaf, layer_of_move, t);
    }
    Ok(PairTable {
        layers: List::from_vec(layers),
    })
}

fn no_layers(alloc: Global) -> Result<Vec<u16>, AllocError>
    ensures { IfOk result (λ v. v.items ≡ empty_table) }
{
    let mut layers = Vec::new(alloc);
    for _entry in 0..PAIR_COUNT {
        layers.push(NO_LAYER)?;
    }
    Ok(layers)
}

/// Enters a move, unless it is silent or in no layer.
fn enter_move(layers: &mut Vec<u16>, leaf: &Leaf, layer_of_move: &[Option<u16>], t: u32)
    requires formed { IsLeaf leaf.now }
    requires long { length layer_of_move.now ≡ length leaf.now.moves }
    requires in_range { t < length leaf.now.moves }
    requires table { IsWakingTable leaf.now layer_of_move.now t layers.old.items }
    ensures { IsWakingTable leaf.now layer_of_move.now (t + 1) layers.new.items }
{
    let taken = leaf.move_at(t);
    let Some(layer) = layer_of_move[t as usize] else {
        return;
    };
    if taken.is_silent() {
        return;
    }
    enter_pair(layers, taken.p, taken.q, layer);
    enter_pair(layers, taken.q, taken.p, layer);
}

fn enter_pair(layers: &mut Vec<u16>, x: u16, y: u16, layer: u16)
    requires long { length layers.old.items ≡ PAIR_COUNT }
    requires x_in { x < STATE_LIMIT }
    requires y_in { y < STATE_LIMIT }
    ensures entered { layers.new.items
        ≡ slice_set layers.old.items (x * STATE_LIMIT + y) (min (first_at layers.old.items x y) layer) }
    ensures len { length layers.new.items ≡ PAIR_COUNT }
{
    let at = x as usize * STATE_LIMIT + y as usize;
    layers[at] = layers[at].min(layer);
}
