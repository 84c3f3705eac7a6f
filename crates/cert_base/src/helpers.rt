//! The helpers of a leaf, by their states.

ghost use Rattle.std.specs.Prelude.{◌≡◌};
ghost use Rattle.cert_base.specs.FactsAndCases.{helpers_starting};

use pop_leaf::Leaf;

/// How many helpers are in a state.
pub(crate) fn helpers_in(leaf: &Leaf, q: u16) -> u32
    ensures { result ≡ helpers_starting leaf.now q }
{
    let mut count = 0;
    for j in 0..leaf.helper_count() {
        count += u32::from(leaf.helper(j) == q);
    }
    count
}
