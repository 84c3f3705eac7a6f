//! The bound of the layers.

ghost use Rattle.std.specs.Prelude.{◌≡◌, ◌≤◌, ◌*◌, All, fold};
ghost use Rattle.std.specs.Int.{int_max, int_min};
ghost use Rattle.cert_base.specs.ProofBound.{weights_spread, layers_bound};
ghost use Rattle.cert_layers.specs.LayerFaults.{IsWeight, AreLayersWithin};

use cert_base::{Layer, SIZE_LIMIT};

/// The sum, over the layers, of the greatest weight less the least.
pub fn bound_of(layers: &[Layer]) -> u64
    requires { AreLayersWithin layers.now }
    ensures { result ≡ layers_bound layers.now }
{
    let mut bound = 0u64;
    for layer in layers {
        bound += spread(layer.weights.as_slice());
    }
    bound
}

/// The greatest weight less the least.
fn spread(weights: &[i64]) -> u64
    requires { All IsWeight weights.now }
    ensures value { result ≡ weights_spread weights.now }
    ensures bound { result ≤ 2 * SIZE_LIMIT }
{
    let Some((first, others)) = weights.split_first() else {
        return 0;
    };
    greatest_of(*first, others).abs_diff(least_of(*first, others))
}

fn least_of(first: i64, others: &[i64]) -> i64
    ensures { result ≡ fold int_min first others.now }
{
    let mut least = first;
    for weight in others {
        least = least.min(*weight);
    }
    least
}

fn greatest_of(first: i64, others: &[i64]) -> i64
    ensures { result ≡ fold int_max first others.now }
{
    let mut greatest = first;
    for weight in others {
        greatest = greatest.max(*weight);
    }
    greatest
}
