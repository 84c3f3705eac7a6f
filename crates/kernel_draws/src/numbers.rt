//! A number below another, each as likely.

ghost use Rattle.std.specs.Prelude.{◌≡◌, ◌<◌, ◌%◌, ◌^◌, MatchOption};
ghost use Rattle.kernel_draws.specs.Uniform.{IsTaken, number_of};

use crate::words::Words;

/// After so many words that are not taken the number is 0: with a size below 2^63 once in 2^64 draws at most.
pub const TRIES: u32 = 64;

/// How many words stand for no number below the size.
pub fn bound_of(size: u64) -> u64
    requires { 0 < size }
    ensures { result ≡ 2 ^ 64 % size }
{
    ((1u128 << 64) % u128::from(size)) as u64
}

/// The number below the size that a word stands for; none where the word is one of the few that would tip the scales.
#[inline(always)]
pub fn number_below(word: u64, size: u64) -> Option<u64>
    requires { 0 < size }
    ensures number { MatchOption result (IsTaken size word → ⊥) (λ number. number ≡ number_of size word) }
    ensures taken { MatchOption result (Unit {0}) (λ _. IsTaken size word) }
    ensures within { MatchOption result (Unit {0}) (λ number. number < size) }
{
    let product = u128::from(word) * u128::from(size);
    let number = (product >> 64) as u64;
    let rest = (product % (1 << 64)) as u64;
    if rest < size && rest < bound_of(size) {
        return None;
    }
    Some(number)
}

/// A number below the size, from the next words.
pub fn below(words: &mut Words, size: u64) -> u64
    requires { 0 < size }
    ensures { result < size }
{
    for _ in 0..TRIES {
        if let Some(number) = number_below(words.next(), size) {
            return number;
        }
    }
    0
}

/// The same, where the size may have more than 64 bits: so many bits as the size has, until they are below it.
pub fn below_wide(words: &mut Words, size: u128) -> u128
    requires { 0 < size }
    ensures { result < size }
{
    if size >> 64 == 0 {
        return u128::from(below(words, size as u64));
    }
    let mask = u128::MAX >> size.leading_zeros();
    for _ in 0..TRIES {
        let high = u128::from(words.next()) << 64;
        let drawn = (high | u128::from(words.next())) & mask;
        if drawn < size {
            return drawn;
        }
    }
    0
}
