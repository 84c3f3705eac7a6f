//! The range of a leaf.

ghost use Rattle.std.specs.Prelude.{◌≡◌, ◌≤◌, nat_abs, nat_le, IfSome};
ghost use Rattle.std.specs.List.{list_all};
ghost use Rattle.comp_trees.specs.declared.range.TheConstants.{RANGE_LIMIT as GREATEST_RANGE};
ghost use Rattle.comp_powers_leaf.specs.PowersRange.{bound_size, suffices, powers_range as range_of};

use comp_trees::{RANGE_LIMIT, two_to};

/// The least that 2^k may be for a bound.
fn size_of(bound: i64) -> u64
    ensures { result ≡ bound_size bound }
{
    if bound < 0 {
        bound.unsigned_abs() + 1
    } else {
        bound as u64
    }
}

fn are_below(coefs: &[i64], range: u64) -> bool
    ensures { result ≡ list_all (λ a. nat_le (nat_abs a) range) coefs.now }
{
    coefs.iter().all(|a| a.unsigned_abs() <= range)
}

/// Whether 2^k is enough for all coefficients and the bound.
fn is_enough(coefs: &[i64], bound: i64, k: u32) -> bool
    requires { k ≤ GREATEST_RANGE }
    ensures { result ≡ suffices coefs.now bound k }
{
    let range = two_to(k);
    are_below(coefs, range) && size_of(bound) <= range
}

/// The least power of the range of an atom `Less`, if one suffices.
pub fn powers_range(coefs: &[i64], bound: i64) -> Option<u32>
    ensures least { result ≡ range_of coefs.now bound }
    ensures low { IfSome result (λ k. k ≤ GREATEST_RANGE) }
{
    (0..RANGE_LIMIT + 1).find(|k| is_enough(coefs, bound, *k))
}
