//! Powers of two, and bits.

ghost use Rattle.std.specs.Prelude.{◌≡◌, ◌≤◌, ◌+◌, ◌^◌};
ghost use Rattle.comp_trees.specs.Bits.{has_bit, power_in};
ghost use Rattle.comp_trees.specs.declared.range.TheConstants.{RANGE_LIMIT};

/// 2^i.
#[tactic(auto, using(crate::proofs::Bits::power_small))]
pub fn two_to(i: u32) -> u64
    requires { i ≤ RANGE_LIMIT + 1 }
    ensures value { result ≡ 2 ^ i }
    ensures small { result ≤ 2 ^ (RANGE_LIMIT + 1) }
{
    1 << i
}

/// Whether bit i is set.
pub fn is_set(n: u64, i: u32) -> bool
    requires { i ≤ RANGE_LIMIT }
    ensures { result ≡ has_bit n i }
{
    let range = two_to(i + 1);
    two_to(i) <= n % range
}

/// The number i with 2^i = n, up to k.
pub fn power_of(k: u32, n: u64) -> Option<u16>
    requires { k ≤ RANGE_LIMIT }
    ensures { result ≡ power_in k n }
{
    (0..k as u16 + 1).find(|i| two_to(u32::from(*i)) == n)
}
