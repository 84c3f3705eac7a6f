//! The multipliers of the nodes.

ghost use Rattle.std.specs.Prelude.{◌≡◌, ◌≤◌, ◌<◌, ◌+◌, ◌-◌, ◌^◌, ◌++◌, ◌∷◌, [], length, map, pos, neg_ℤ, IfOk};
ghost use Rattle.std.specs.List.{range_with_len};
ghost use Rattle.cert_base.specs.Rows.{zeros};
ghost use Rattle.comp_trees.specs.LeaderTree.{company_of};
ghost use Rattle.comp_counting.specs.declared.limits.TheConstants.{POWER_LIMIT};
ghost use Rattle.comp_counting.specs.FullState.{for_states};
ghost use Rattle.comp_flock.specs.CountProof.{greatest_worth, lost_worth as lost_of, lesser_worth as lesser_of};
ghost use Rattle.comp_flock.specs.CountProof.{is_low as low_of, kept_worth as kept_of, ruled_worth as ruled_of};
ghost use Rattle.comp_flock.specs.CountProof.{own_worth as own_of, with_mix, without_mix, first_mix};

use crate::worths::{Worths, worth_in};
use comp_trees::{company, mix, picked};
use pop_io::NoMemory;
use pop_leaf::Leaf;
use std::alloc::Global;

fn own_worth(worths: &Worths<'_>, q: u16) -> i64
    requires state { q ≤ worths.now.k + 1 }
    ensures { result ≡ own_of worths.now.list.now q }
{
    worth_in(worths, q) as i64
}

/// What an agent in the state is worth at most.
fn greatest(worths: &Worths<'_>, q: u16) -> u64
    requires state { q ≤ worths.now.k + 1 }
    ensures value { result ≡ greatest_worth worths.now.most worths.now.list.now worths.now.k q }
    ensures small { result ≤ 2 ^ POWER_LIMIT }
{
    if q == worths.k + 1 {
        worths.most
    } else {
        worth_in(worths, q)
    }
}

fn lost_worth(worths: &Worths<'_>, q: u16) -> i64
    requires state { q ≤ worths.now.k + 1 }
    ensures { result ≡ lost_of worths.now.most worths.now.list.now worths.now.k q }
{
    -(greatest(worths, q) as i64)
}

/// What it is worth, but 0 for the full state.
fn lesser_worth(worths: &Worths<'_>, q: u16) -> i64
    requires state { q ≤ worths.now.k + 1 }
    ensures { result ≡ lesser_of worths.now.list.now worths.now.k q }
{
    if q == worths.k + 1 {
        0
    } else {
        own_worth(worths, q)
    }
}

/// Whether an agent is worth less than what a prefix lacks to the next.
fn is_low(worths: &Worths<'_>, p: u16, q: u16) -> bool
    requires prefix { p ≤ worths.now.k }
    requires state { q ≤ worths.now.k + 1 }
    ensures { result ≡ low_of worths.now.list.now p q }
{
    worth_in(worths, p) + worth_in(worths, q) < worth_in(worths, p + 1)
}

fn kept_worth(worths: &Worths<'_>, p: u16, q: u16) -> i64
    requires prefix { p ≤ worths.now.k }
    requires state { q ≤ worths.now.k + 1 }
    ensures { result ≡ kept_of worths.now.list.now p q }
{
    if is_low(worths, p, q) {
        own_worth(worths, q)
    } else {
        0
    }
}

fn ruled_worth(worths: &Worths<'_>, p: u16, q: u16) -> i64
    requires prefix { p ≤ worths.now.k }
    requires state { q ≤ worths.now.k + 1 }
    ensures { result ≡ ruled_of worths.now.most worths.now.list.now worths.now.k p q }
{
    if is_low(worths, p, q) {
        0
    } else {
        lost_worth(worths, q)
    }
}

fn all_lost(alloc: Global, worths: &Worths<'_>) -> Result<Vec<i64>, NoMemory>
    ensures { IfOk result (λ all. all.items ≡ for_states worths.now.k (lost_of worths.now.most worths.now.list.now worths.now.k)) }
{
    let all = (0..worths.k + 2)
        .map(|q| lost_worth(worths, q))
        .collect(alloc)?;
    Ok(all)
}

fn all_lesser(alloc: Global, worths: &Worths<'_>) -> Result<Vec<i64>, NoMemory>
    ensures { IfOk result (λ all. all.items ≡ for_states worths.now.k (lesser_of worths.now.list.now worths.now.k)) }
{
    let all = (0..worths.k + 2)
        .map(|q| lesser_worth(worths, q))
        .collect(alloc)?;
    Ok(all)
}

fn all_ruled(alloc: Global, worths: &Worths<'_>, p: u16) -> Result<Vec<i64>, NoMemory>
    requires prefix { p ≤ worths.now.k }
    ensures { IfOk result (λ all. all.items ≡ for_states worths.now.k (ruled_of worths.now.most worths.now.list.now worths.now.k p)) }
{
    let all = (0..worths.k + 2)
        .map(|q| ruled_worth(worths, p, q))
        .collect(alloc)?;
    Ok(all)
}

/// What is kept of the powers.
fn all_kept(alloc: Global, worths: &Worths<'_>, p: u16) -> Result<Vec<i64>, NoMemory>
    requires prefix { p ≤ worths.now.k }
    ensures { IfOk result (λ all. all.items ≡ map (kept_of worths.now.list.now p) (range_with_len 1 worths.now.top)) }
{
    let all = (1..worths.top + 1)
        .map(|q| kept_worth(worths, p, q))
        .collect(alloc)?;
    Ok(all)
}

fn powers(alloc: Global, worths: &Worths<'_>) -> Result<Vec<i64>, NoMemory>
    ensures { IfOk result (λ all. all.items ≡ map (own_of worths.now.list.now) (range_with_len 1 worths.now.top)) }
{
    let all = (1..worths.top + 1)
        .map(|q| own_worth(worths, q))
        .collect(alloc)?;
    Ok(all)
}

/// What the prefixes lose.
fn prefixes(alloc: Global, worths: &Worths<'_>) -> Result<Vec<i64>, NoMemory>
    ensures { IfOk result (λ all. all.items ≡ map (lost_of worths.now.most worths.now.list.now worths.now.k)
        (range_with_len (worths.now.top + 1) (worths.now.k - worths.now.top))) }
{
    let all = (worths.top + 1..worths.k + 1)
        .map(|q| lost_worth(worths, q))
        .collect(alloc)?;
    Ok(all)
}

/// The multipliers of the powers' facts, behind that of the full state.
fn behind(alloc: Global, first: i64, powers: Vec<i64>) -> Result<Vec<i64>, NoMemory>
    ensures { IfOk result (λ all. all.items ≡ first ∷ powers.items) }
{
    let mut all = Vec::from_slice(alloc, &[first])?;
    all.extend_from_slice(powers.as_slice())?;
    Ok(all)
}

/// Those above a prefix: the full state, the powers, and the prefixes before it.
fn above(alloc: Global, worths: &Worths<'_>, p: u16) -> Result<Vec<i64>, NoMemory>
    requires top { worths.now.top < p }
    requires prefix { p ≤ worths.now.k }
    ensures { IfOk result (λ all.
        all.items ≡ (pos 0 ∷ map (kept_of worths.now.list.now p) (range_with_len 1 worths.now.top))
        ++ zeros (p - (worths.now.top + 1))) }
{
    let kept = all_kept(alloc, worths, p)?;
    let mut all = behind(alloc, 0, kept)?;
    let none = vec![in alloc; 0i64; usize::from(p - (worths.top + 1))]?;
    all.extend_from_slice(none.as_slice())?;
    Ok(all)
}

/// Those of the states that a prefix rules out.
fn ruled_out(alloc: Global, leaf: &Leaf, worths: &Worths<'_>, p: u16) -> Result<Vec<i64>, NoMemory>
    requires states { length leaf.now.states ≡ worths.now.k + 2 }
    requires prefix { p ≤ worths.now.k }
    ensures { IfOk result (λ out.
        out.items ≡ map (ruled_of worths.now.most worths.now.list.now worths.now.k p) (company_of leaf.now p)) }
{
    let states = company(alloc, leaf, p)?;
    let ruled = all_ruled(alloc, worths, p)?;
    picked(alloc, ruled.as_slice(), states.as_slice())
}

/// Those of a prefix that is present: itself, whom it rules out, and that it is alone.
fn present(alloc: Global, leaf: &Leaf, worths: &Worths<'_>, p: u16) -> Result<Vec<i64>, NoMemory>
    requires states { length leaf.now.states ≡ worths.now.k + 2 }
    requires prefix { p ≤ worths.now.k }
    ensures { IfOk result (λ all. all.items
        ≡ (pos 0 ∷ map (ruled_of worths.now.most worths.now.list.now worths.now.k p) (company_of leaf.now p))
        ++ neg_ℤ (own_of worths.now.list.now p) ∷ []) }
{
    let out = ruled_out(alloc, leaf, worths, p)?;
    let mut all = behind(alloc, 0, out)?;
    all.push(-own_worth(worths, p))?;
    Ok(all)
}

/// With a prefix, the first one that is present.
pub(crate) fn with_prefix(
    alloc: Global,
    leaf: &Leaf,
    worths: &Worths<'_>,
    p: u16,
) -> Result<Vec<i64>, NoMemory>
    requires states { length leaf.now.states ≡ worths.now.k + 2 }
    requires top { worths.now.top < p }
    requires prefix { p ≤ worths.now.k }
    ensures { IfOk result (λ multipliers.
        multipliers.items ≡ with_mix leaf.now worths.now.most worths.now.list.now worths.now.k worths.now.top p) }
{
    let mut own = above(alloc, worths, p)?;
    let present = present(alloc, leaf, worths, p)?;
    own.extend_from_slice(present.as_slice())?;
    let flows = all_lost(alloc, worths)?;
    mix(alloc, flows.as_slice(), 0, 1, own.as_slice())
}

/// With no prefix.
pub(crate) fn without_prefix(alloc: Global, worths: &Worths<'_>) -> Result<Vec<i64>, NoMemory>
    ensures { IfOk result (λ multipliers.
        multipliers.items ≡ without_mix worths.now.most worths.now.list.now worths.now.k worths.now.top) }
{
    let powers = powers(alloc, worths)?;
    let mut own = behind(alloc, -(worths.most as i64), powers)?;
    let prefixes = prefixes(alloc, worths)?;
    own.extend_from_slice(prefixes.as_slice())?;
    let flows = all_lost(alloc, worths)?;
    mix(alloc, flows.as_slice(), 0, 1, own.as_slice())
}

/// The first full one takes the target.
pub(crate) fn first(alloc: Global, worths: &Worths<'_>) -> Result<Vec<i64>, NoMemory>
    ensures { IfOk result (λ multipliers.
        multipliers.items ≡ first_mix worths.now.list.now worths.now.target worths.now.k) }
{
    let flows = all_lesser(alloc, worths)?;
    mix(alloc, flows.as_slice(), 0, 1, &[worths.target as i64])
}
