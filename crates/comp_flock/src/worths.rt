//! What the states are worth.

ghost use Rattle.std.specs.Prelude.{◌≡◌, ◌≤◌, ◌+◌, ◌-◌, ◌^◌, ◌%◌, ◌++◌, ◌∷◌, [], length, map, if◌then◌else◌, IfOk};
ghost use Rattle.std.specs.Prelude.{OnOk};
ghost use Rattle.std.specs.List.{range_with_len};
ghost use Rattle.comp_trees.specs.Bits.{has_bit};
ghost use Rattle.comp_counting.specs.declared.limits.TheConstants.{POWER_LIMIT};
ghost use Rattle.comp_flock.specs.PrefixLeaf.{prefixes, worths as worths_of, bound_worths};
ghost use Rattle.comp_flock.specs.CountLeaf.{worth_in as worth_of};
ghost use Rattle.comp_flock.specs.CountLeaf.{AreWorths};
ghost use Rattle.comp_flock.specs.FlockLeaf.{power_worths as powers_of};

use comp_counting::enough_for;
use comp_trees::{is_set, two_to};
use pop_io::NoMemory;
use std::alloc::Global;

/// What the states of a leaf are worth: nothing, then the powers up to the place `top`, then the prefixes of `target`
/// up to the place `k`; two agents that are worth `target` become full, and a full one is worth `most` at most. Where
/// the leaf keeps worths, two that are worth just `target` join.
#[derive(Clone, Copy)]
pub(crate) struct Worths<'a> {
    pub(crate) list: &'a [u64],
    pub(crate) enough: u64,
    pub(crate) target: u64,
    pub(crate) most: u64,
    pub(crate) keeps: bool,
    pub(crate) top: u16,
    pub(crate) k: u16,
    ghost are: { AreWorths list.now k },
    ghost below: { enough ≤ 2 ^ POWER_LIMIT },
    ghost within: { target ≤ 2 ^ POWER_LIMIT },
    ghost high: { most ≤ 2 ^ POWER_LIMIT },
    ghost powers: { top ≤ k },
}

/// What a state is worth.
pub(crate) fn worth_in(worths: &Worths<'_>, q: u16) -> u64
    requires state { q ≤ worths.now.k + 1 }
    ensures value { result ≡ worth_of worths.now.list.now q }
    ensures small { result ≤ 2 ^ POWER_LIMIT }
{
    worths.list[usize::from(q)]
}

/// c without its last i bits.
fn front(enough: u64, i: u32) -> u64
    requires { i ≤ POWER_LIMIT }
    ensures { result ≡ enough - enough % 2 ^ i }
{
    enough - enough % two_to(i)
}

fn push_powers(worths: &mut Vec<u64>, top: u32) -> Result<(), NoMemory>
    requires { top ≤ POWER_LIMIT + 1 }
    ensures { OnOk result (worths.new.items ≡ worths.old.items ++ map (λ i. 2 ^ i) (range_with_len 0 top)) }
{
    for i in 0..top {
        worths.push(two_to(i))?;
    }
    Ok(())
}

/// One prefix, if the bit is set.
fn push_prefix(worths: &mut Vec<u64>, enough: u64, i: u32) -> Result<(), NoMemory>
    requires { i ≤ POWER_LIMIT }
    ensures { OnOk result (worths.new.items
        ≡ worths.old.items ++ (if has_bit enough i then ((enough - enough % 2 ^ i) ∷ []) else [])) }
{
    if is_set(enough, i) {
        worths.push(front(enough, i))?;
    }
    Ok(())
}

/// The prefixes that have more than the bits from `count` on, the least first.
fn push_prefixes(worths: &mut Vec<u64>, enough: u64, count: u32) -> Result<(), NoMemory>
    requires { count ≤ POWER_LIMIT + 1 }
    ensures { OnOk result (worths.new.items ≡ worths.old.items ++ prefixes enough count) }
{
    for j in 0..count {
        push_prefix(worths, enough, count - 1 - j)?;
    }
    Ok(())
}

/// What all states are worth, the least first.
pub(crate) fn all_worths(alloc: Global, enough: u64, top: u32) -> Result<Vec<u64>, NoMemory>
    requires { top ≤ POWER_LIMIT }
    ensures { IfOk result (λ worths. worths.items ≡ worths_of enough top) }
{
    let mut worths = Vec::from_slice(alloc, &[0u64])?;
    push_powers(&mut worths, top)?;
    push_prefixes(&mut worths, enough, top + 1)?;
    Ok(worths)
}

/// The same for a target that is a power of two.
pub(crate) fn power_worths(alloc: Global, power: u32) -> Result<Vec<u64>, NoMemory>
    requires { power ≤ POWER_LIMIT }
    ensures { IfOk result (λ worths. worths.items ≡ powers_of power) }
{
    let mut worths = Vec::from_slice(alloc, &[0u64])?;
    push_powers(&mut worths, power + 1)?;
    Ok(worths)
}

fn one_if(set: bool) -> u32
    ensures value { result ≡ (if set then 1 else 0) }
    ensures small { result ≤ 1 }
{
    if set { 1 } else { 0 }
}

/// How many prefixes have more than the bits from `count` on.
fn count_prefixes(enough: u64, count: u32) -> u32
    requires { count ≤ POWER_LIMIT + 1 }
    ensures ones { result ≡ length (prefixes enough count) }
    ensures few { result ≤ count }
{
    let mut ones = 0;
    for i in 0..count {
        ones += one_if(is_set(enough, i));
    }
    ones
}

/// How many states the leaf has. Allocates nothing.
pub fn prefix_states(bound: i64, top: u32) -> u32
    requires { top ≤ POWER_LIMIT }
    ensures { result ≡ length (bound_worths bound top) }
{
    top + 1 + count_prefixes(enough_for(bound), top + 1)
}
