//! Numbers printed in decimal digits many times over, at places of a buffer.

ghost use Rattle.std.specs.Prelude.{◌≡◌, ℕ, ◌+◌, ◌<◌, ◌≤◌, ◌∷◌, [], List, length, slice_index_or, decimal};
ghost use Rattle.base_lines.specs.Places.{IsPlaced, three_digits};

use itoa::Buffer;
use std::alloc::{AllocError, Global};
use std::marker::Model;

/// The most digits of a number below 2^32.
pub const NUMBER_ROOM: usize = 10;

/// How many numbers have numerals; a number below the square of this is printed by two of them.
const NUMERAL_LIMIT: u32 = 1_000;

/// The most digits of a number below `NUMERAL_LIMIT`.
const NUMERAL_DIGITS: usize = 3;

/// The bytes of a numeral, which are copied at once: its digits, and one more.
const NUMERAL_SIZE: usize = 4;

/// A short number in decimal digits; contracts see the digits.
#[derive(Drop)]
struct Numeral {
    bytes: [u8; NUMERAL_SIZE],
    len: u8,
}

impl Model for Numeral {
    ghost use Rattle.std.specs.Prelude.{ℕ, ◌≤◌, List, take};

    ghost Value = { List ℕ };

    ghost view = { λ n. take n.len n.bytes };

    ghost invariant = { λ n. n.len ≤ 3 };
}

impl Numeral {
    fn of(n: u32) -> Numeral
        requires { n < NUMERAL_LIMIT }
        ensures { result ≡ decimal n }
    {
        let mut buffer = Buffer::new();
        let digits = buffer.format(n).as_bytes();
        let mut bytes = [0; NUMERAL_SIZE];
        let len = put_bytes(&mut bytes, 0, digits) as u8;
        Numeral { bytes, len }
    }

    /// With zeros before them, so that there are three.
    fn padded(n: u32) -> Numeral
        requires { n < NUMERAL_LIMIT }
        ensures { result ≡ three_digits n }
    {
        Numeral {
            bytes: [
                b'0' + (n / 100) as u8,
                b'0' + (n / 10 % 10) as u8,
                b'0' + (n % 10) as u8,
                b'0',
            ],
            len: NUMERAL_DIGITS as u8,
        }
    }

    /// Writes the digits, and whatever is stored after them.
    #[inline(always)]
    fn put(&self, buffer: &mut [u8], at: usize) -> usize
        requires { at + NUMERAL_SIZE ≤ length buffer.old }
        ensures placed { IsPlaced buffer.old buffer.new at self.now result }
        ensures room { result ≤ at + NUMERAL_DIGITS }
    {
        buffer[at..at + NUMERAL_SIZE].copy_from_slice(&self.bytes);
        at + self.len as usize
    }
}

/// The decimal digits of the smallest numbers, made once, with and without zeros before them.
#[derive(Drop)]
pub struct Numerals {
    plain: Vec<Numeral>,
    padded: Vec<Numeral>,
    ghost each: { (n : ℕ) (d : List ℕ) → n < length plain.items → slice_index_or plain.items n d ≡ decimal n },
    ghost each_padded: { (n : ℕ) (d : List ℕ) → n < length padded.items
        → slice_index_or padded.items n d ≡ three_digits n },
}

impl Numerals {
    /// Numerals for numbers below this one, or for fewer.
    pub fn new(alloc: Global, count: u32) -> Result<Numerals, AllocError> {
        let most = count.min(NUMERAL_LIMIT);
        let mut plain = Vec::with_capacity(alloc, most as usize)?;
        let mut padded = Vec::with_capacity(alloc, most as usize)?;
        for n in 0..most {
            plain.push_reserved(Numeral::of(n));
            padded.push_reserved(Numeral::padded(n));
        }
        Ok(Numerals { plain, padded })
    }

    /// Writes a number at a place of a buffer in decimal digits, and returns where they end.
    #[inline(always)]
    pub fn put(&self, buffer: &mut [u8], at: usize, n: u32) -> usize
        requires { at + NUMBER_ROOM ≤ length buffer.old }
        ensures placed { IsPlaced buffer.old buffer.new at (decimal n) result }
        ensures room { result ≤ at + NUMBER_ROOM }
    {
        if n >= NUMERAL_LIMIT {
            return self.put_parts(buffer, at, n);
        }
        match self.plain.get(n as usize) {
            Some(numeral) => numeral.put(buffer, at),
            None => put_number(buffer, at, n),
        }
    }

    /// Writes a number by the numeral of its thousands, and that of its last three digits.
    #[inline(always)]
    fn put_parts(&self, buffer: &mut [u8], at: usize, n: u32) -> usize
        requires room { at + NUMBER_ROOM ≤ length buffer.old }
        requires long { NUMERAL_LIMIT ≤ n }
        ensures placed { IsPlaced buffer.old buffer.new at (decimal n) result }
        ensures room { result ≤ at + NUMBER_ROOM }
    {
        let thousands = self.plain.get((n / NUMERAL_LIMIT) as usize);
        let last = self.padded.get((n % NUMERAL_LIMIT) as usize);
        match (thousands, last) {
            (Some(thousands), Some(last)) => {
                let end = thousands.put(buffer, at);
                last.put(buffer, end)
            }
            _ => put_number(buffer, at, n),
        }
    }
}

/// Writes a number for which there are no numerals.
#[inline(never)]
fn put_number(buffer: &mut [u8], at: usize, n: u32) -> usize
    requires { at + NUMBER_ROOM ≤ length buffer.old }
    ensures placed { IsPlaced buffer.old buffer.new at (decimal n) result }
    ensures room { result ≤ at + NUMBER_ROOM }
{
    let mut digits = Buffer::new();
    put_bytes(buffer, at, digits.format(n).as_bytes())
}

/// Writes bytes at a place of a buffer, and returns where they end.
#[inline(always)]
pub fn put_bytes(buffer: &mut [u8], at: usize, bytes: &[u8]) -> usize
    requires { at + length bytes.now ≤ length buffer.old }
    ensures { IsPlaced buffer.old buffer.new at bytes.now result }
{
    let end = at + bytes.len();
    buffer[at..end].copy_from_slice(bytes);
    end
}

/// Writes a byte at a place of a buffer, and returns where it ends.
#[inline(always)]
pub fn put_byte(buffer: &mut [u8], at: usize, byte: u8) -> usize
    requires { at < length buffer.old }
    ensures { IsPlaced buffer.old buffer.new at (byte ∷ []) result }
{
    buffer[at] = byte;
    at + 1
}
