//! The check of the layers of a leaf.

ghost use Rattle.std.specs.Prelude.{◌≡◌, IfOk, OnOk};
ghost use Rattle.pop_leaf.specs.LeafModel.{IsLeaf};
ghost use Rattle.cert_layers.specs.MoveLayers.{AreMoveLayers};
ghost use Rattle.cert_base.specs.ValidLayers.{ValidLayers};
ghost use Rattle.cert_base.specs.ProofBound.{layers_bound};
ghost use Rattle.pop_io.specs.Failures.{IfFault};
ghost use Rattle.cert_layers.specs.LayerFaults.{AreBrokenFirst, AreLayersWithin, ChecksLayers};

use crate::bound::bound_of;
use crate::fault::LayerWhy;
use crate::lower::{first_not_lower, first_unlisted};
use crate::move_layers::layers_of_moves;
use crate::pairs::pair_table;
use crate::waking::first_waking;
use cert_base::Layer;
use pop_io::{Failure, List};
use pop_net::Leaf;
use std::alloc::Global;

/// Whether the layers of a leaf are valid, and their bound for each agent (layered termination of Blondin,
/// Esparza, Jaax, Meyer 2017). A move wakes another only by bringing one of its states, so pairs of moves are
/// checked by their states.
pub fn check_layers(
    alloc: Global,
    leaf: &Leaf,
    layers: &List<Layer>,
) -> Result<u64, Failure<LayerWhy>>
    requires { AreLayersWithin layers.now }
    ensures { ChecksLayers leaf.now layers.now result }
{
    checked(alloc, leaf, layers.as_slice())
}

fn checked(alloc: Global, leaf: &Leaf, layers: &[Layer]) -> Result<u64, Failure<LayerWhy>>
    requires { AreLayersWithin layers.now }
    ensures valid { IfOk result (λ bound. ValidLayers leaf.now layers.now × (bound ≡ layers_bound layers.now)) }
    ensures fault { IfFault result (AreBrokenFirst leaf.now layers.now) }
    ensures formed { IsLeaf leaf.now }
{
    let layer_of_move = layers_of_moves(alloc, leaf, layers)?;
    check_moves(alloc, leaf, layers, layer_of_move.as_slice())?;
    Ok(bound_of(layers))
}

/// Whether the moves stand in layers, lower their weights and wake none of earlier layers.
fn check_moves(
    alloc: Global,
    leaf: &Leaf,
    layers: &[Layer],
    layer_of_move: &[Option<u16>],
) -> Result<(), Failure<LayerWhy>>
    requires within { AreLayersWithin layers.now }
    requires formed { IsLeaf leaf.now }
    requires placed { AreMoveLayers leaf.now layers.now layer_of_move.now }
    ensures valid { OnOk result (ValidLayers leaf.now layers.now) }
    ensures fault { IfFault result (AreBrokenFirst leaf.now layers.now) }
{
    if let Some(t) = first_unlisted(leaf, layer_of_move) {
        return Err(Failure::Fault(LayerWhy::NoLayer(t)));
    }
    if let Some(t) = first_not_lower(leaf, layers, layer_of_move) {
        return Err(Failure::Fault(LayerWhy::NotLower(t)));
    }
    let table = pair_table(alloc, leaf, layer_of_move)?;
    match first_waking(leaf, layer_of_move, &table) {
        Some((t, u)) => Err(Failure::Fault(LayerWhy::Wakes(t, u))),
        None => Ok(()),
    }
}
