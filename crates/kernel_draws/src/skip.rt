//! How many trials fail before one succeeds, by whole numbers alone.

ghost use Rattle.std.specs.Prelude.{◌<◌, ◌≤◌, ◌^◌};

use crate::fraction::{share, times};
use crate::words::{Words, more};

/// A skip has fewer bits than this: one that is longer ends there.
pub const SKIP_BITS: u32 = 100;

/// A fraction to the powers of 1, 2, 4, 8, .. as far as they are not below a bound; how many there are.
fn squares(of: u128, bound: u128, found: &mut [u128; 100]) -> u32
    ensures { result ≤ 100 }
{
    let mut square = of;
    for bit in 0..SKIP_BITS {
        if square < bound {
            return bit;
        }
        found[bit as usize] = square;
        square = times(square, square);
    }
    SKIP_BITS
}

/// The greatest number g for which U is not above (1-p)^g, bit by bit from the highest one on, where `good` of `among`
/// trials succeed, and U is the next word and the bits behind it.
pub fn skipped(words: &mut Words, good: u128, among: u128) -> u128
    requires less { good < among }
    requires room { among < 2 ^ 127 }
    ensures { result < 2 ^ 101 }
{
    let word = words.next();
    let drawn = u128::from(word) << 64 | u128::from(more(word)) | 1;
    let mut found = [0u128; 100];
    let bits = squares(u128::MAX - share(good, among), drawn, &mut found);
    let mut now = u128::MAX;
    let mut skip = 0u128;
    for step in 0..bits {
        let next = times(now, found[(bits - 1 - step) as usize]);
        skip *= 2;
        if drawn <= next {
            now = next;
            skip += 1;
        }
    }
    skip
}
