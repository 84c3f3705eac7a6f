//! The layer of each move.

ghost use Rattle.std.specs.Prelude.{◌≡◌, ◌≤◌, length, Some, None, IfOk, MatchBool, replicate};
ghost use Rattle.pop_leaf.specs.LeafModel.{IsLeaf};
ghost use Rattle.cert_layers.specs.MoveLayers.{enter_all, entered_layer, FindsMoveLayers};

use crate::fault::LayerWhy;
use cert_base::{LAYER_LIMIT, Layer};
use pop_io::{Failure, List};
use pop_net::Leaf;
use std::alloc::{AllocError, Global};

/// The layer of each move, if one lists it, or the first layer that is out of shape.
pub(crate) fn layers_of_moves(
    alloc: Global,
    leaf: &Leaf,
    layers: &[Layer],
) -> Result<List<Option<u16>>, Failure<LayerWhy>>
    requires { length layers.now ≤ LAYER_LIMIT }
    ensures layer_of_move { FindsMoveLayers leaf.now layers.now result }
    ensures formed { IsLeaf leaf.now }
{
    let states = leaf.state_count();
    let mut layer_of_move = all_unlisted(alloc, leaf.move_count())?;
    for (i, layer) in layers.iter().enumerate() {
        if !enter_layer(&mut layer_of_move, states, layer, i as u16) {
            return Err(Failure::Fault(LayerWhy::Shape(i as u32)));
        }
    }
    Ok(List::from_vec(layer_of_move))
}

fn all_unlisted(alloc: Global, count: u32) -> Result<Vec<Option<u16>>, AllocError>
    ensures { IfOk result (λ v. v.items ≡ replicate count None) }
{
    let mut layer_of_move = Vec::new(alloc);
    for _t in 0..count {
        layer_of_move.push(None)?;
    }
    Ok(layer_of_move)
}

/// Enters the moves of a layer, if it has its shape.
fn enter_layer(
    layer_of_move: &mut Vec<Option<u16>>,
    states: u16,
    layer: &Layer,
    number: u16,
) -> bool
    ensures entered { MatchBool result
        (entered_layer states layer_of_move.old.items number layer.now ≡ Some layer_of_move.new.items)
        (entered_layer states layer_of_move.old.items number layer.now ≡ None) }
{
    layer.weights.as_slice().len() == usize::from(states)
        && enter_moves(layer_of_move, layer.moves.as_slice(), number)
}

fn enter_moves(layer_of_move: &mut Vec<Option<u16>>, moves: &[u32], layer: u16) -> bool
    ensures entered { MatchBool result
        (enter_all layer_of_move.old.items layer moves.now ≡ Some layer_of_move.new.items)
        (enter_all layer_of_move.old.items layer moves.now ≡ None) }
{
    for number in moves {
        let at = *number as usize;
        if layer_of_move.len() <= at || layer_of_move[at].is_some() {
            return false;
        }
        layer_of_move[at] = Some(layer);
    }
    true
}
