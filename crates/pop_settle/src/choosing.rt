//! The layers that an input chooses.

ghost use Rattle.std.specs.Prelude.{◌≡◌, length, All, IfOk};
ghost use Rattle.cert_base.specs.StableProof.{pred_of_part};
ghost use Rattle.pop_settle.specs.Chosen.{layers_for, layers_at, part_at, proof_at};

use cert_base::{Layer, LeafGoals, LeafProof, Proof, StablePart, StableProof};
use pop_io::{List, NoMemory};
use pres_ast::Pred;
use std::alloc::Global;

/// For each leaf the layers that the counts choose, in a proof without trees.
pub(crate) fn chosen_proof(
    alloc: Global,
    proof: &StableProof,
    counts: &[u64],
) -> Result<Proof, NoMemory>
    requires { All (λ part. (pred_of_part part).variables ≡ length counts.now) proof.now.leaves }
    ensures { IfOk result (λ chosen. chosen ≡ proof_at counts.now proof.now) }
{
    let mut leaves = Vec::new(alloc);
    for part in proof.leaves.as_slice() {
        leaves.push(chosen_part(alloc, part, counts)?)?;
    }
    Ok(Proof {
        leaves: List::from_vec(leaves),
    })
}

fn chosen_part(alloc: Global, part: &StablePart, counts: &[u64]) -> Result<LeafProof, NoMemory>
    requires { (pred_of_part part.now).variables ≡ length counts.now }
    ensures { IfOk result (λ chosen. chosen ≡ part_at counts.now part.now) }
{
    Ok(LeafProof {
        pred: pred_of(part).copy(alloc)?,
        layers: copy_layers(alloc, chosen_layers(part, counts).as_slice())?,
        on_true: List::from_vec(Vec::new(alloc)),
        on_false: List::from_vec(Vec::new(alloc)),
    })
}

fn pred_of(part: &StablePart) -> &Pred
    ensures { result.now ≡ pred_of_part part.now }
{
    match part {
        StablePart::Silent(LeafProof { pred, .. }) => pred,
        StablePart::Stable(LeafGoals { pred, .. }) => pred,
    }
}

fn chosen_layers<'a>(part: &'a StablePart, counts: &[u64]) -> &'a List<Layer>
    requires { (pred_of_part part.now).variables ≡ length counts.now }
    ensures { result.now ≡ layers_at counts.now part.now }
{
    match part {
        StablePart::Silent(part) => &part.layers,
        StablePart::Stable(goals) => goal_layers(goals, goals.pred.eval(counts)),
    }
}

/// The layers of the goal for a value.
fn goal_layers(goals: &LeafGoals, value: bool) -> &List<Layer>
    ensures { result.now ≡ layers_for goals.now value }
{
    if value {
        &goals.on_true.layers
    } else {
        &goals.on_false.layers
    }
}

fn copy_layers(alloc: Global, layers: &[Layer]) -> Result<List<Layer>, NoMemory>
    ensures { IfOk result (λ copies. copies ≡ layers.now) }
{
    let mut copies = Vec::new(alloc);
    for layer in layers {
        copies.push(copy_layer(alloc, layer)?)?;
    }
    Ok(List::from_vec(copies))
}

fn copy_layer(alloc: Global, layer: &Layer) -> Result<Layer, NoMemory>
    ensures { IfOk result (λ copy. copy ≡ layer.now) }
{
    Ok(Layer {
        moves: layer.moves.copy(alloc)?,
        weights: layer.weights.copy(alloc)?,
    })
}
