//! Which atoms are flock atoms.

ghost use Rattle.std.specs.Prelude.{◌≡◌, ◌≤◌, ◌+◌, ◌^◌, find, nat_le, IfSome};
ghost use Rattle.std.specs.List.{range_with_len, list_all};
ghost use Rattle.std.specs.Ordering.{int_eq};
ghost use Rattle.comp_counting.specs.declared.limits.TheConstants.{POWER_LIMIT as GREATEST_POWER};
ghost use Rattle.comp_counting.specs.FlockAtoms.{is_flock_coefficient as is_flock, has_sign as has_sign_of};
ghost use Rattle.comp_counting.specs.FlockAtoms.{is_size as is_size_of, is_counted as is_counted_by, flock_bound};
ghost use Rattle.comp_counting.specs.FlockAtoms.{power_of as power_of_flock, power_of_counted};
ghost use Rattle.comp_counting.specs.FlockAtoms.{offset_power as offset_power_of};

use crate::limits::POWER_LIMIT;
use crate::meaning::{enough_for, says_enough};
use comp_trees::{power_of, two_to};

/// The bound of the flock atom with this power.
pub fn bound_of_power(k: u32) -> i64
    requires { k ≤ GREATEST_POWER }
    ensures { result ≡ flock_bound k }
{
    1 - two_to(k) as i64
}

fn is_flock_coefficient(coef: i64) -> bool
    ensures { result ≡ is_flock coef }
{
    coef == 0 || coef == -1
}

/// Whether an agent adds nothing, or something of the sign that the atom counts.
fn has_sign(says: bool, coef: i64) -> bool
    ensures { result ≡ has_sign_of says coef }
{
    if says { coef <= 0 } else { 0 <= coef }
}

/// Whether a state stands for this number, or it is enough.
fn is_size(enough: u64, size: u64) -> bool
    ensures { result ≡ is_size_of enough size }
{
    enough <= size || power_of(POWER_LIMIT, size).is_some() || size == 0
}

#[tactic(auto, unfolding(crate::specs::FlockAtoms::is_counted))]
fn is_counted(says: bool, enough: u64, coef: i64) -> bool
    ensures { result ≡ is_counted_by says enough coef }
{
    has_sign(says, coef) && is_size(enough, coef.unsigned_abs())
}

/// Whether the leaf counts the agents of all variables, where this many are enough.
pub fn are_counted(says: bool, enough: u64, coefs: &[i64]) -> bool
    ensures { result ≡ list_all (is_counted_by says enough) coefs.now }
{
    coefs.iter().all(|coef| is_counted(says, enough, *coef))
}

fn are_flock(coefs: &[i64]) -> bool
    ensures { result ≡ list_all is_flock coefs.now }
{
    coefs.iter().all(|coef| is_flock_coefficient(*coef))
}

/// The power with this bound.
fn power_by(bound: i64) -> Option<u32>
    ensures { result ≡ find (λ k. int_eq bound (flock_bound k)) (range_with_len 1 GREATEST_POWER) }
{
    (1..POWER_LIMIT + 1).find(|k| bound == bound_of_power(*k))
}

/// The power k if the atom `Less` with these numbers says that a sum of variables is at least 2^k: each coefficient is
/// 0 or -1, and the bound is 1 - 2^k. Allocates nothing.
pub fn flock_power(coefs: &[i64], bound: i64) -> Option<u32>
    ensures { result ≡ power_of_flock coefs.now bound }
{
    if are_flock(coefs) {
        power_by(bound)
    } else {
        None
    }
}

/// Whether 2^k is enough.
fn is_within(enough: u64, k: u32) -> bool
    requires { k ≤ GREATEST_POWER }
    ensures { result ≡ nat_le enough (2 ^ k) }
{
    enough <= two_to(k)
}

/// The least power that is enough.
fn least_power(enough: u64) -> Option<u32>
    ensures least { result ≡ find (λ k. nat_le enough (2 ^ k)) (range_with_len 0 (GREATEST_POWER + 1)) }
    ensures low { IfSome result (λ k. k ≤ GREATEST_POWER) }
{
    (0..POWER_LIMIT + 1).find(|k| is_within(enough, *k))
}

/// The same, if all agents are counted.
fn power_if(says: bool, enough: u64, coefs: &[i64]) -> Option<u32>
    ensures least { result ≡ power_of_counted says enough coefs.now }
    ensures low { IfSome result (λ k. k ≤ GREATEST_POWER) }
{
    if are_counted(says, enough, coefs) {
        least_power(enough)
    } else {
        None
    }
}

/// The least power k with c at most 2^k, if the atom `Less` with these numbers says that a sum is at least c, or denies
/// it: `-x < 1 - c`, or `x < c`. Each coefficient is 0, a power of two or at least c. Allocates nothing.
pub fn offset_power(coefs: &[i64], bound: i64) -> Option<u32>
    ensures least { result ≡ offset_power_of coefs.now bound }
    ensures low { IfSome result (λ k. k ≤ GREATEST_POWER) }
{
    power_if(says_enough(bound), enough_for(bound), coefs)
}
