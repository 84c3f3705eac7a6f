//! The layers of a leaf.

ghost use Rattle.std.specs.Prelude.{◌≡◌, ◌+◌, ◌==◌, nat_lt, IfOk};
ghost use Rattle.cert_base.specs.FactsAndCases.{indicator};
ghost use Rattle.comp_remainder.specs.RemainderLayers.{indicator_weights, remainder_layers};

use crate::modulus::Modulus;
use cert_base::Layer;
use comp_trees::layer;
use pop_io::{List, NoMemory};
use pop_leaf::Leaf;
use std::alloc::Global;

/// 1 where a test passes.
fn weight(passes: bool) -> i64
    ensures { result ≡ indicator passes }
{
    if passes { 1 } else { 0 }
}

fn leader_weights(alloc: Global, modulus: Modulus) -> Result<Vec<i64>, NoMemory>
    ensures { IfOk result (λ weights. weights.items ≡ indicator_weights modulus.number (λ q. nat_lt q modulus.number)) }
{
    let weights = (0..modulus.number + 2)
        .map(|q| weight(q < modulus.number))
        .collect(alloc)?;
    Ok(weights)
}

fn false_weights(alloc: Global, modulus: Modulus) -> Result<Vec<i64>, NoMemory>
    ensures { IfOk result (λ weights. weights.items ≡ indicator_weights modulus.number (λ q. q == modulus.number)) }
{
    let weights = (0..modulus.number + 2)
        .map(|q| weight(q == modulus.number))
        .collect(alloc)?;
    Ok(weights)
}

fn true_weights(alloc: Global, modulus: Modulus) -> Result<Vec<i64>, NoMemory>
    ensures { IfOk result (λ weights. weights.items ≡ indicator_weights modulus.number (λ q. q == modulus.number + 1)) }
{
    let weights = (0..modulus.number + 2)
        .map(|q| weight(q == modulus.number + 1))
        .collect(alloc)?;
    Ok(weights)
}

/// First the meetings of leaders, then the turns to true, then those to false.
pub(crate) fn leaf_layers(
    alloc: Global,
    leaf: &Leaf,
    modulus: Modulus,
) -> Result<List<Layer>, NoMemory>
    ensures { IfOk result (λ layers. layers ≡ remainder_layers leaf.now modulus.number) }
{
    let mut layers = Vec::new(alloc);
    layers.push(layer(
        alloc,
        leaf,
        modulus.number,
        0,
        leader_weights(alloc, modulus)?,
    )?)?;
    layers.push(layer(
        alloc,
        leaf,
        modulus.number,
        1,
        false_weights(alloc, modulus)?,
    )?)?;
    layers.push(layer(
        alloc,
        leaf,
        modulus.number,
        2,
        true_weights(alloc, modulus)?,
    )?)?;
    Ok(List::from_vec(layers))
}
