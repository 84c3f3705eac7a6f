//! What a variable's tokens give off.

ghost use Rattle.std.specs.Prelude.{◌≡◌, ◌≤◌, ◌^◌, nat_abs};
ghost use Rattle.comp_powers_leaf.specs.PowersLeaf.{owed};
ghost use Rattle.comp_trees.specs.declared.range.TheConstants.{RANGE_LIMIT};

use comp_trees::two_to;

/// What the tokens of a variable with this coefficient give off.
pub fn owed_by(k: u32, coef: i64) -> u64
    requires range { k ≤ RANGE_LIMIT }
    requires within { nat_abs coef ≤ 2 ^ k }
    ensures { result ≡ owed k coef }
{
    if coef < 0 {
        two_to(k) - coef.unsigned_abs()
    } else {
        coef as u64
    }
}
