//! What a full agent is worth at most.

ghost use Rattle.std.specs.Prelude.{◌≡◌, ◌≤◌, ◌^◌, nat_abs, nat_le};
ghost use Rattle.std.specs.List.{list_all};
ghost use Rattle.comp_counting.specs.declared.limits.TheConstants.{POWER_LIMIT};
ghost use Rattle.comp_flock.specs.FlockProof.{full_size as full_size_of};

use comp_counting::POWER_LIMIT as GREATEST_POWER;
use comp_trees::two_to;

fn is_within(power: u16, coef: i64) -> bool
    requires { power ≤ POWER_LIMIT }
    ensures { result ≡ nat_le (nat_abs coef) (2 ^ power) }
{
    coef.unsigned_abs() <= two_to(u32::from(power))
}

fn are_within(power: u16, coefs: &[i64]) -> bool
    requires { power ≤ POWER_LIMIT }
    ensures { result ≡ list_all (λ a. nat_le (nat_abs a) (2 ^ power)) coefs.now }
{
    coefs.iter().all(|coef| is_within(power, *coef))
}

/// What an agent in 2^k counts for at most.
#[tactic(auto, using(crate::proofs::Powers::power_small))]
pub(crate) fn full_size(coefs: &[i64], power: u16) -> u64
    requires { power ≤ POWER_LIMIT }
    ensures value { result ≡ full_size_of coefs.now power }
    ensures small { result ≤ 2 ^ POWER_LIMIT }
{
    if are_within(power, coefs) {
        two_to(u32::from(power))
    } else {
        two_to(GREATEST_POWER)
    }
}
