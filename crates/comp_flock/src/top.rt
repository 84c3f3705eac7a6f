//! Which atoms have such a leaf.

ghost use Rattle.std.specs.Prelude.{◌≡◌, ◌≤◌, ◌+◌, ◌^◌, ◌&&◌, find, nat_le, nat_lt, IfSome};
ghost use Rattle.std.specs.List.{range_with_len, list_all};
ghost use Rattle.comp_counting.specs.declared.limits.TheConstants.{POWER_LIMIT as GREATEST_POWER};
ghost use Rattle.comp_counting.specs.FlockAtoms.{is_counted};
ghost use Rattle.comp_flock.specs.PrefixLeaf.{top_of_counted, prefix_top as top_of};

use comp_counting::{POWER_LIMIT, are_counted, enough_for, says_enough};
use comp_trees::two_to;

fn is_above(enough: u64, k: u32) -> bool
    requires { k ≤ GREATEST_POWER }
    ensures { result ≡ nat_lt enough (2 ^ (k + 1)) }
{
    enough < two_to(k + 1)
}

/// The place of the greatest one.
fn greatest_one(enough: u64) -> Option<u32>
    ensures first { result ≡ find (λ k. nat_lt enough (2 ^ (k + 1))) (range_with_len 0 (GREATEST_POWER + 1)) }
    ensures low { IfSome result (λ k. k ≤ GREATEST_POWER) }
{
    (0..POWER_LIMIT + 1).find(|k| is_above(enough, *k))
}

fn has_leaf(says: bool, enough: u64, coefs: &[i64]) -> bool
    ensures { result ≡ (nat_le enough (2 ^ GREATEST_POWER) && list_all (is_counted says enough) coefs.now) }
{
    enough <= two_to(POWER_LIMIT) && are_counted(says, enough, coefs)
}

/// The same, if all agents are counted.
fn top_if(says: bool, enough: u64, coefs: &[i64]) -> Option<u32>
    ensures first { result ≡ top_of_counted says enough coefs.now }
    ensures low { IfSome result (λ k. k ≤ GREATEST_POWER) }
{
    if has_leaf(says, enough, coefs) {
        greatest_one(enough)
    } else {
        None
    }
}

/// The place of c's greatest one, if the atom `Less` with these numbers says that a sum is at least c, or denies it:
/// `-x < 1 - c`, or `x < c`. Each coefficient is 0, a power of two or at least c, and c is within the limit. Allocates
/// nothing.
pub fn prefix_top(coefs: &[i64], bound: i64) -> Option<u32>
    ensures first { result ≡ top_of coefs.now bound }
    ensures low { IfSome result (λ k. k ≤ GREATEST_POWER) }
{
    top_if(says_enough(bound), enough_for(bound), coefs)
}
