//! Remainders by one number, many times over, without a division.

ghost use Rattle.std.specs.Prelude.{◌≡◌, ◌%◌, ◌<◌};

use std::marker::Model;

/// A number above 0 to divide by, with its inverse; contracts see the number.
#[derive(Drop)]
pub(crate) struct Divisor {
    number: u32,
    inverse: u64,
}

impl Model for Divisor {
    ghost use Rattle.std.specs.Prelude.{ℕ, ◌≡◌, ◌<◌, ◌-◌, ◌/◌, ◌^◌};

    ghost Value = { ℕ };

    ghost view = { λ d. d.number };

    ghost invariant = { λ d. (0 < d.number) × (d.inverse ≡ (2 ^ 64 - 1) / d.number) };
}

impl Divisor {
    /// This number. It divides once, and allocates nothing.
    pub(crate) fn of(number: u32) -> Divisor
        requires { 0 < number }
        ensures { result ≡ number }
    {
        Divisor {
            number,
            inverse: u64::MAX / u64::from(number),
        }
    }

    /// The number.
    #[inline(always)]
    pub(crate) fn number(&self) -> u32
        ensures { result ≡ self.now }
    {
        self.number
    }

    /// What is left of n. The quotient by the inverse is right, or one too small.
    #[inline(always)]
    pub(crate) fn remainder(&self, n: u32) -> u32
        ensures { result ≡ n % self.now }
    {
        let quotient = ((u128::from(n) * u128::from(self.inverse)) >> 64) as u64;
        let number = u64::from(self.number);
        let rest = u64::from(n) - quotient * number;
        (if rest < number { rest } else { rest - number }) as u32
    }
}
