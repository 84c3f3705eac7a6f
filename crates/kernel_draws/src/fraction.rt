//! Fractions below 1, as whole numbers of 2^-128.

ghost use Rattle.std.specs.Prelude.{◌≡◌, ◌*◌, ◌-◌, ◌/◌, ◌%◌, ◌^◌, ◌<◌, ◌≤◌};

/// The low 64 bits.
#[inline(always)]
fn low(a: u128) -> u128
    ensures value { result ≡ a % 2 ^ 64 }
    ensures within { result < 2 ^ 64 }
{
    a % (1 << 64)
}

/// The high 64 bits.
#[inline(always)]
fn high(a: u128) -> u128
    ensures value { result ≡ a / 2 ^ 64 }
    ensures within { result < 2 ^ 64 }
{
    a >> 64
}

/// The product of two numbers below 2^64.
#[inline(always)]
fn product(a: u128, b: u128) -> u128
    requires a_in { a < 2 ^ 64 }
    requires b_in { b < 2 ^ 64 }
    ensures value { result ≡ a * b }
    ensures within { result ≤ (2 ^ 64 - 1) * (2 ^ 64 - 1) }
{
    a * b
}

/// The product, rounded down.
pub fn times(a: u128, b: u128) -> u128
    ensures { result ≡ a * b / 2 ^ 128 }
{
    let middle = product(high(a), low(b));
    let other = product(low(a), high(b));
    let carry = high(product(low(a), low(b))) + low(middle) + low(other);
    product(high(a), high(b)) + high(middle) + high(other) + high(carry)
}

/// The share `good` of `among`, rounded down.
pub fn share(good: u128, among: u128) -> u128
    requires less { good < among }
    requires room { among < 2 ^ 127 }
    ensures { result ≡ good * 2 ^ 128 / among }
{
    if high(among) == 0 {
        let whole = good << 64;
        let rest = whole % among;
        return ((whole / among) << 64) + (rest << 64) / among;
    }
    share_by_bits(good, among)
}

/// The same, bit by bit.
fn share_by_bits(good: u128, among: u128) -> u128
    requires less { good < among }
    requires room { among < 2 ^ 127 }
    ensures { result ≡ good * 2 ^ 128 / among }
{
    let mut rest = good;
    let mut found = 0u128;
    for _bit in 0..128u32 {
        rest *= 2;
        found *= 2;
        if among <= rest {
            rest -= among;
            found += 1;
        }
    }
    found
}
