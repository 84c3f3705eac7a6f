//! The layer of a leaf.

ghost use Rattle.std.specs.Prelude.{◌≡◌, ◌≤◌, ◌+◌, map, IfOk};
ghost use Rattle.std.specs.List.{range_with_len};
ghost use Rattle.comp_counting.specs.declared.limits.TheConstants.{PLACE_LIMIT};
ghost use Rattle.comp_counting.specs.FullState.{flock_state_count, flock_weight, counting_layers as layers_of};

use cert_base::Layer;
use pop_io::{List, NoMemory};
use std::alloc::Global;

fn weight_of(power: u16, q: u16) -> i64
    requires { power ≤ PLACE_LIMIT }
    ensures { result ≡ flock_weight power q }
{
    if q == 0 {
        1
    } else if q == power + 1 {
        0
    } else {
        2
    }
}

fn weights(alloc: Global, power: u16) -> Result<Vec<i64>, NoMemory>
    requires { power ≤ PLACE_LIMIT }
    ensures { IfOk result (λ weights.
        weights.items ≡ map (flock_weight power) (range_with_len 0 (flock_state_count power))) }
{
    let weights = (0..power + 2).map(|q| weight_of(power, q)).collect(alloc)?;
    Ok(weights)
}

fn numbers(alloc: Global, count: u32) -> Result<Vec<u32>, NoMemory>
    ensures { IfOk result (λ numbers. numbers.items ≡ range_with_len 0 count) }
{
    let mut numbers = Vec::new(alloc);
    for number in 0..count {
        numbers.push(number)?;
    }
    Ok(numbers)
}

/// All of this many moves in one layer.
pub fn counting_layers(alloc: Global, count: u32, power: u16) -> Result<List<Layer>, NoMemory>
    requires { power ≤ PLACE_LIMIT }
    ensures { IfOk result (λ layers. layers ≡ layers_of count power) }
{
    let moves = List::from_vec(numbers(alloc, count)?);
    let weights = List::from_vec(weights(alloc, power)?);
    let mut layers = Vec::new(alloc);
    layers.push(Layer { moves, weights })?;
    Ok(List::from_vec(layers))
}
