//! Two different agents from one random word (Brackett-Rozinsky and Lemire 2024).

ghost use Rattle.std.specs.Prelude.{◌≡◌, ◌≢◌, ◌≤◌, ◌<◌, ◌+◌, ◌-◌, ◌*◌, ◌%◌, ◌^◌, IfSome, MatchOption};
ghost use Rattle.kernel_draws.specs.Uniform.{IsTaken, number_of, number_of_pair, pair_count};

/// The number of a pair, as one of n agents and one of the n - 1 others.
#[inline(always)]
fn parts_of(word: u64, n: u32, least: u64) -> Option<(u32, u32)>
    requires crowd { 2 ≤ n }
    requires bound { least ≡ 2 ^ 64 % pair_count n }
    ensures number { IfSome result (λ pair. pair.0 * (n - 1) + pair.1 ≡ number_of (pair_count n) word) }
    ensures within { IfSome result (λ pair. pair.0 < n) }
    ensures other { IfSome result (λ pair. pair.1 < n - 1) }
    ensures taken { MatchOption result (IsTaken (pair_count n) word → ⊥) (λ _. IsTaken (pair_count n) word) }
{
    let high = u128::from(word) * u128::from(n);
    let first = (high >> 64) as u32;
    let rest = (high % (1 << 64)) * u128::from(n - 1);
    let other = (rest >> 64) as u32;
    if ((rest % (1 << 64)) as u64) < least {
        return None;
    }
    Some((first, other))
}

/// The pair that a word stands for, where `least` words stand for none.
#[inline(always)]
pub fn pair_of(word: u64, n: u32, least: u64) -> Option<(u32, u32)>
    requires crowd { 2 ≤ n }
    requires bound { least ≡ 2 ^ 64 % pair_count n }
    ensures number { IfSome result (λ pair. number_of_pair n pair ≡ number_of (pair_count n) word) }
    ensures first { IfSome result (λ pair. pair.0 < n) }
    ensures second { IfSome result (λ pair. pair.1 < n) }
    ensures different { IfSome result (λ pair. pair.0 ≢ pair.1) }
    ensures taken { MatchOption result (IsTaken (pair_count n) word → ⊥) (λ _. IsTaken (pair_count n) word) }
{
    let (first, other) = parts_of(word, n, least)?;
    Some((first, if first <= other { other + 1 } else { other }))
}
