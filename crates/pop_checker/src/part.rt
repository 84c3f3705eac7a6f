//! The check of one leaf's part of a proof.

ghost use Rattle.std.specs.Prelude.{◌≡◌, ◌≤◌, ◌*◌, [], length, All, IfOk, OnOk};
ghost use Rattle.pop_io.specs.Failures.{IfFault, OnlyMemory};
ghost use Rattle.cert_base.specs.FactsAndCases.{base_list};
ghost use Rattle.cert_base.specs.Closes.{Closes};
ghost use Rattle.cert_base.specs.Ends.{EndsRight};
ghost use Rattle.cert_base.specs.ProofBound.{layers_bound};
ghost use Rattle.cert_base.specs.ProofLimits.{IsLayerWithin, AreNodesWithin, IsLeafProofWithin};
ghost use Rattle.cert_base.specs.ValidLayers.{ValidLayers};
ghost use Rattle.cert_base.specs.ValidProof.{ValidLeafProof};
ghost use Rattle.pop_checker.specs.Parts.{IsRightPart, IsLayersFault, IsValueFault, IsPartFault};

use crate::fault::Rejected;
use cert_base::{LAYER_LIMIT, LeafProof, Node, SIZE_LIMIT};
use cert_layers::check_layers;
use cert_tree::{TreeFault, check_tree};
use pop_io::{Failure, List};
use pop_net::Leaf;
use pres_ast::Pred;
use std::alloc::Global;

/// Whether the layers and both trees of the leaf with this number are right, and the bound for each agent.
pub(crate) fn check_part(
    alloc: Global,
    leaf: &Leaf,
    number: u8,
    part: &LeafProof,
) -> Result<u64, Failure<Rejected>>
    requires variables { part.now.pred.variables ≡ length leaf.now.inputs }
    requires within { IsLeafProofWithin part.now.pred.variables part.now }
    ensures right { IfOk result (λ bound. IsRightPart leaf.now part.now) }
    ensures bound { IfOk result (λ bound.
        (bound ≡ layers_bound part.now.layers) × (bound ≤ LAYER_LIMIT * (2 * SIZE_LIMIT))) }
    ensures fault { IfFault result (IsPartFault leaf.now part.now number) }
    ensures accepts { ValidLeafProof leaf.now part.now → OnlyMemory result }
{
    let bound = check_order(alloc, leaf, number, part)?;
    check_value(alloc, leaf, number, &part.pred, true, &part.on_true)?;
    check_value(alloc, leaf, number, &part.pred, false, &part.on_false)?;
    Ok(bound)
}

fn check_order(
    alloc: Global,
    leaf: &Leaf,
    number: u8,
    part: &LeafProof,
) -> Result<u64, Failure<Rejected>>
    requires few { length part.now.layers ≤ LAYER_LIMIT }
    requires within { All IsLayerWithin part.now.layers }
    ensures valid { IfOk result (λ bound. ValidLayers leaf.now part.now.layers) }
    ensures bound { IfOk result (λ bound.
        (bound ≡ layers_bound part.now.layers) × (bound ≤ LAYER_LIMIT * (2 * SIZE_LIMIT))) }
    ensures fault { IfFault result (IsLayersFault leaf.now part.now number) }
    ensures accepts { ValidLayers leaf.now part.now.layers → OnlyMemory result }
{
    match check_layers(alloc, leaf, &part.layers) {
        Ok(bound) => Ok(bound),
        Err(Failure::Fault(why)) => Err(Failure::Fault(Rejected::Layers { leaf: number, why })),
        Err(Failure::NoMemory) => Err(Failure::NoMemory),
    }
}

fn check_value(
    alloc: Global,
    leaf: &Leaf,
    number: u8,
    pred: &Pred,
    value: bool,
    nodes: &List<Node>,
) -> Result<(), Failure<Rejected>>
    requires variables { pred.now.variables ≡ length leaf.now.inputs }
    requires within { AreNodesWithin nodes.now }
    ensures closes { OnOk result (Closes leaf.now (base_list leaf.now pred.now value) nodes.now []) }
    ensures right { OnOk result (EndsRight leaf.now pred.now.tree value) }
    ensures fault { IfFault result (IsValueFault leaf.now pred.now value nodes.now number) }
    ensures accepts { Closes leaf.now (base_list leaf.now pred.now value) nodes.now []
        → OnlyMemory result }
{
    match check_tree(alloc, leaf, pred, value, nodes) {
        Ok(()) => Ok(()),
        Err(Failure::Fault(TreeFault { node, why })) => Err(Failure::Fault(Rejected::Tree {
            leaf: number,
            value,
            node,
            why,
        })),
        Err(Failure::NoMemory) => Err(Failure::NoMemory),
    }
}
