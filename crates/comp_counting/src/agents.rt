//! Where the agents of the variables start, and what the states say.

ghost use Rattle.std.specs.Prelude.{◌≡◌, ◌≤◌, map, IfOk};
ghost use Rattle.std.specs.List.{range_with_len};
ghost use Rattle.comp_trees.specs.Bits.{power_in};
ghost use Rattle.comp_counting.specs.declared.limits.TheConstants.{POWER_LIMIT, PLACE_LIMIT};
ghost use Rattle.comp_counting.specs.FullState.{flock_start, place_of as place, flock_state_count, flock_output};

use crate::limits::POWER_LIMIT as GREATEST_POWER;
use comp_trees::power_of;
use pop_io::NoMemory;
use std::alloc::Global;

/// What 2^k says, and the others deny.
fn output(says: bool, power: u16, q: u16) -> bool
    requires { power ≤ PLACE_LIMIT }
    ensures { result ≡ flock_output says power q }
{
    if says { q == power + 1 } else { q != power + 1 }
}

/// The outputs of all states.
pub fn outputs(alloc: Global, says: bool, power: u16) -> Result<Vec<bool>, NoMemory>
    requires { power ≤ PLACE_LIMIT }
    ensures { IfOk result (λ outputs.
        outputs.items ≡ map (flock_output says power) (range_with_len 0 (flock_state_count power))) }
{
    let outputs = (0..power + 2)
        .map(|q| output(says, power, q))
        .collect(alloc)?;
    Ok(outputs)
}

/// The state that stands for this number.
fn place_of(size: u64) -> u16
    ensures { result ≡ place (power_in POWER_LIMIT size) }
{
    match power_of(GREATEST_POWER, size) {
        Some(i) => i + 1,
        None => 0,
    }
}

/// The state of an agent of a variable at the start.
fn start_of(enough: u64, power: u16, coef: i64) -> u16
    requires { power ≤ PLACE_LIMIT }
    ensures { result ≡ flock_start enough power coef }
{
    if enough <= coef.unsigned_abs() {
        power + 1
    } else {
        place_of(coef.unsigned_abs())
    }
}

/// Where the agents of the variables start.
pub fn inputs(alloc: Global, enough: u64, power: u16, coefs: &[i64]) -> Result<Vec<u16>, NoMemory>
    requires { power ≤ PLACE_LIMIT }
    ensures { IfOk result (λ inputs. inputs.items ≡ map (flock_start enough power) coefs.now) }
{
    let mut inputs = Vec::new(alloc);
    for coef in coefs {
        inputs.push(start_of(enough, power, *coef))?;
    }
    Ok(inputs)
}
