//! Numbers read from decimal digits.

ghost use Rattle.std.specs.Prelude.{◌≡◌, ◌^◌, ◌<◌, decimal, IfSome};
ghost use Rattle.base_lines.specs.Numbers.{number_of, small_number_of, number_of_within};
ghost use Rattle.base_lines.specs.Numbers.{printed_number_of, printed_number_of_within, has_no_leading_zero};

/// The greatest number of digits that are read.
pub const DIGIT_LIMIT: usize = 20;

/// The number, of any value, that 1 to `DIGIT_LIMIT` digits stand for. Leading zeros are accepted, a sign is not.
/// Like the other readers of numbers, it allocates nothing.
pub fn number(text: &[u8]) -> Option<u128>
    ensures { result ≡ number_of text.now }
{
    if text.is_empty() || DIGIT_LIMIT < text.len() {
        return None;
    }
    let mut value = 0u128;
    for byte in text {
        if !byte.is_ascii_digit() {
            return None;
        }
        value = value * 10 + u128::from(*byte - b'0');
    }
    Some(value)
}

/// The number, if it is below 2^64.
pub fn small_number(text: &[u8]) -> Option<u64>
    ensures { result ≡ small_number_of text.now }
{
    let value = number(text)?;
    if value <= u128::from(u64::MAX) {
        Some(value as u64)
    } else {
        None
    }
}

/// The number, if it is from `least` to `most`.
pub fn number_within(text: &[u8], least: u64, most: u64) -> Option<u64>
    ensures { result ≡ number_of_within least most text.now }
{
    let value = number(text)?;
    if u128::from(least) <= value && value <= u128::from(most) {
        Some(value as u64)
    } else {
        None
    }
}

/// The number, if the text is its printed form: without leading zeros.
pub fn printed_number(text: &[u8]) -> Option<u128>
    ensures value { result ≡ printed_number_of text.now }
    ensures printed { IfSome result (λ n. n < 2 ^ 64 → text.now ≡ decimal n) }
{
    if is_printed(text) { number(text) } else { None }
}

/// The number in its printed form, if it is from `least` to `most`.
pub fn printed_within(text: &[u8], least: u64, most: u64) -> Option<u64>
    ensures value { result ≡ printed_number_of_within least most text.now }
    ensures printed { IfSome result (λ n. text.now ≡ decimal n) }
{
    if is_printed(text) {
        number_within(text, least, most)
    } else {
        None
    }
}

fn is_printed(text: &[u8]) -> bool
    ensures { result ≡ has_no_leading_zero text.now }
{
    match text {
        [] => false,
        [_] => true,
        [first, _, ..] => *first != b'0',
    }
}
