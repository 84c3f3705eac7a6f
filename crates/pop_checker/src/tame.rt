//! Whether each leaf falls silent by tame layers.

ghost use Rattle.std.specs.Prelude.{Decides, IfOk, length};
ghost use Rattle.cert_base.specs.ProofLimits.{IsLeafProofWithin};
ghost use Rattle.cert_base.specs.StableProof.{pred_of_part, IsPartWithin, IsStableProofWithin};
ghost use Rattle.cert_base.specs.ValidLayers.{ValidLayers};
ghost use Rattle.cert_layers.specs.TameWork.{AreTameInTime};
ghost use Rattle.pop_checker.specs.ValidStable.{ValidPart};
ghost use Rattle.pop_checker.specs.Silent.{IsTamePart, AreTameParts, ArePartsValid};

use cert_base::{LeafProof, StablePart, StableProof};
use cert_layers::is_tame;
use pop_io::{Failure, NoMemory};
use pop_net::{Leaf, Net};
use std::alloc::Global;

/// Whether each leaf falls silent by tame layers, and telling that takes no more work than the limit. Then random
/// meetings are expected to settle a right net soon (`cubic` of `valid_is_right`).
pub fn are_tame(alloc: Global, net: &Net, proof: &StableProof) -> Result<bool, NoMemory>
    requires within { IsStableProofWithin (length net.now.variables) (length net.now.leaves) proof.now }
    requires valid { ArePartsValid net.now proof.now }
    ensures { IfOk result (λ tame. Decides tame (AreTameParts net.now proof.now)) }
{
    // What the invariant says is known from here on.
    let _formed = net.leaf_count();
    let parts = proof.leaves.as_slice();
    for (number, part) in parts.iter().enumerate() {
        let number = number as u8;
        let tame = is_part_tame(alloc, net.leaf(number), part)?;
        if !tame {
            return Ok(false);
        }
    }
    Ok(true)
}

/// Whether a leaf does.
fn is_part_tame(alloc: Global, leaf: &Leaf, part: &StablePart) -> Result<bool, NoMemory>
    requires within { IsPartWithin (pred_of_part part.now).variables part.now }
    requires valid { ValidPart leaf.now part.now }
    ensures { IfOk result (λ tame. Decides tame (IsTamePart leaf.now part.now)) }
{
    match part {
        StablePart::Silent(part) => has_tame_layers(alloc, leaf, part),
        StablePart::Stable(_) => Ok(false),
    }
}

/// Whether the layers of a leaf are tame.
fn has_tame_layers(alloc: Global, leaf: &Leaf, part: &LeafProof) -> Result<bool, NoMemory>
    requires within { IsLeafProofWithin part.now.pred.variables part.now }
    requires valid { ValidLayers leaf.now part.now.layers }
    ensures { IfOk result (λ tame. Decides tame (AreTameInTime leaf.now part.now.layers)) }
{
    match is_tame(alloc, leaf, &part.layers) {
        Ok(tame) => Ok(tame),
        // Valid layers have no fault.
        Err(Failure::Fault(_)) => Ok(false),
        Err(Failure::NoMemory) => Err(NoMemory),
    }
}
