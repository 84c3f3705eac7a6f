//! The layers of a leaf.

ghost use Rattle.std.specs.Prelude.{◌≡◌, map, IfOk};
ghost use Rattle.comp_threshold.specs.ThresholdProof.{threshold_distance, threshold_first_weight};
ghost use Rattle.comp_threshold.specs.ThresholdProof.{threshold_false_weight, threshold_true_weight, threshold_weights};
ghost use Rattle.comp_threshold.specs.ThresholdProof.{threshold_layers};

use crate::narrow::Width;
use crate::values::{place_in, span};
use cert_base::Layer;
use comp_trees::layer;
use pop_io::{List, NoMemory};
use pop_leaf::Leaf;
use std::alloc::Global;

fn distance(a: u16, b: u16) -> u16
    ensures { result ≡ threshold_distance a b }
{
    if a < b { b - a } else { a - b }
}

fn first_weight(width: Width, q: u16) -> i64
    ensures { result ≡ threshold_first_weight width.number q }
{
    if q < span(width) {
        i64::from(width.number) + 1
    } else {
        i64::from(distance(width.number, place_in(width, q)))
    }
}

fn false_weight(width: Width, q: u16) -> i64
    ensures { result ≡ threshold_false_weight width.number q }
{
    let n = span(width);
    if q < n {
        0
    } else if q < n + n {
        1
    } else {
        0
    }
}

fn true_weight(width: Width, q: u16) -> i64
    ensures { result ≡ threshold_true_weight width.number q }
{
    let n = span(width);
    if q < n + n { 0 } else { 1 }
}

fn first_weights(alloc: Global, width: Width) -> Result<Vec<i64>, NoMemory>
    ensures { IfOk result (λ weights.
        weights.items ≡ threshold_weights width.number (threshold_first_weight width.number)) }
{
    let weights = (0..3 * span(width))
        .map(|q| first_weight(width, q))
        .collect(alloc)?;
    Ok(weights)
}

fn false_weights(alloc: Global, width: Width) -> Result<Vec<i64>, NoMemory>
    ensures { IfOk result (λ weights.
        weights.items ≡ threshold_weights width.number (threshold_false_weight width.number)) }
{
    let weights = (0..3 * span(width))
        .map(|q| false_weight(width, q))
        .collect(alloc)?;
    Ok(weights)
}

fn true_weights(alloc: Global, width: Width) -> Result<Vec<i64>, NoMemory>
    ensures { IfOk result (λ weights.
        weights.items ≡ threshold_weights width.number (threshold_true_weight width.number)) }
{
    let weights = (0..3 * span(width))
        .map(|q| true_weight(width, q))
        .collect(alloc)?;
    Ok(weights)
}

/// First what changes a leader or a value, then the bits turned true, then those turned false.
pub(crate) fn leaf_layers(alloc: Global, leaf: &Leaf, width: Width) -> Result<List<Layer>, NoMemory>
    ensures { IfOk result (λ layers. layers ≡ threshold_layers leaf.now width.number) }
{
    let n = span(width);
    let mut layers = Vec::new(alloc);
    layers.push(layer(alloc, leaf, n, 0, first_weights(alloc, width)?)?)?;
    layers.push(layer(alloc, leaf, n, 1, false_weights(alloc, width)?)?)?;
    layers.push(layer(alloc, leaf, n, 2, true_weights(alloc, width)?)?)?;
    Ok(List::from_vec(layers))
}
