//! The helpers of a leaf.

ghost use Rattle.std.specs.Prelude.{◌≡◌, ◌≤◌, ◌-◌, ◌^◌, ◌++◌, length, replicate, if◌then◌else◌, IfOk};
ghost use Rattle.comp_trees.specs.Bits.{has_bit};
ghost use Rattle.comp_counting.specs.declared.limits.TheConstants.{POWER_LIMIT};
ghost use Rattle.comp_flock.specs.FlockLeaf.{bit_states, offset_helper_count as count_of};

use comp_counting::enough_for;
use comp_trees::{is_set, two_to};
use pop_io::NoMemory;
use std::alloc::Global;

/// How many agents the helpers stand for.
pub(crate) fn missing(enough: u64, power: u16) -> u64
    requires { power ≤ POWER_LIMIT }
    ensures { result ≡ 2 ^ power - enough }
{
    two_to(u32::from(power)).saturating_sub(enough)
}

/// Whether bit i is set, for the state 2^i, which is state i + 1.
fn has(n: u64, q: u16) -> bool
    requires first { 1 ≤ q }
    requires last { q ≤ POWER_LIMIT }
    ensures { result ≡ has_bit n (q - 1) }
{
    is_set(n, u32::from(q - 1))
}

/// The states 2^i for which bit i is set.
fn set_states(alloc: Global, n: u64, power: u16) -> Result<Vec<u16>, NoMemory>
    requires { power ≤ POWER_LIMIT }
    ensures { IfOk result (λ states. states.items ≡ bit_states n power) }
{
    let states = (1..power + 1).filter(|q| has(n, *q)).collect(alloc)?;
    Ok(states)
}

/// The states of helpers that stand for n agents, and of the spare ones.
pub(crate) fn helpers(alloc: Global, n: u64, power: u16, spare: u32) -> Result<Vec<u16>, NoMemory>
    requires { power ≤ POWER_LIMIT }
    ensures { IfOk result (λ states. states.items ≡ bit_states n power ++ replicate spare 0) }
{
    let mut states = set_states(alloc, n, power)?;
    let more = vec![in alloc; 0u16; spare as usize]?;
    states.extend_from_slice(more.as_slice())?;
    Ok(states)
}

fn one_if(set: bool) -> u32
    ensures value { result ≡ (if set then 1 else 0) }
    ensures small { result ≤ 1 }
{
    if set { 1 } else { 0 }
}

/// How many bits are set.
fn count_set(n: u64, power: u16) -> u32
    requires { power ≤ POWER_LIMIT }
    ensures count { result ≡ length (bit_states n power) }
    ensures few { result ≤ power }
{
    let mut count = 0;
    for q in 1..power + 1 {
        count += one_if(has(n, q));
    }
    count
}

/// How many helpers the leaf needs: the ones in the binary numeral of 2^k - c. Allocates nothing.
pub fn offset_helper_count(bound: i64, power: u32) -> u32
    requires { power ≤ POWER_LIMIT }
    ensures count { result ≡ count_of bound power }
    ensures few { result ≤ power }
{
    let missing = missing(enough_for(bound), power as u16);
    count_set(missing, power as u16)
}
