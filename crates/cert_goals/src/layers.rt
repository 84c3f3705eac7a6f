//! The check of layers of some moves.

ghost use Rattle.cert_layers.specs.LayerFaults.{AreLayersWithin};
ghost use Rattle.cert_goals.specs.SomeLayers.{ChecksSomeLayers};

use cert_layers::{LayerWhy, check_layers};
use cert_sets::GoalMoves;
use pop_io::Failure;
use std::alloc::Global;

/// Whether the layers are valid for the leaf in which the moves that they list are kept and all others are silent, and
/// their bound for each agent.
pub(crate) fn checked_layers(alloc: Global, given: &GoalMoves<'_>) -> Result<u64, Failure<LayerWhy>>
    requires { AreLayersWithin given.now.layers.now }
    ensures { ChecksSomeLayers given.now.leaf.now given.now.layers.now result }
{
    check_layers(alloc, given.kept, given.layers)
}
