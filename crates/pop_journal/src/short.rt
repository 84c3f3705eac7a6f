//! Meeting lines of short numbers, read in one pass.

ghost use Rattle.std.specs.Prelude.{◌≡◌, ◌∷◌, ◌++◌, [], if◌then◌else◌, codes, decimal, Some, IfSome};
ghost use Rattle.base_lines.specs.Lines.{lines_of};
ghost use Rattle.pop_journal.specs.Form.{Tells};
ghost use Rattle.pop_journal.specs.FirstPair.{IsFirstPair};

use crate::form::MeetingLine;

/// Each number of so many digits is below 2^32.
const SHORT_DIGITS: usize = 9;

/// A short number in its printed form at the start of a text, and what follows it.
#[inline(always)]
fn leading_number(text: &[u8]) -> Option<(u32, &[u8])>
    ensures { IfSome result (λ found. text.now ≡ decimal found.0 ++ found.1.now) }
{
    let (first, behind) = text.split_first()?;
    if !first.is_ascii_digit() {
        return None;
    }
    let mut value = u32::from(*first - b'0');
    if value == 0 {
        return Some((0, behind));
    }
    let end = text.len().min(SHORT_DIGITS);
    for i in 1..end {
        let byte = text[i];
        if !byte.is_ascii_digit() {
            return Some((value, &text[i..]));
        }
        value = value * 10 + u32::from(byte - b'0');
    }
    Some((value, &text[end..]))
}

/// What follows this byte, if a text begins with it.
#[inline(always)]
fn behind(text: &[u8], byte: u8) -> Option<&[u8]>
    ensures { IfSome result (λ rest. text.now ≡ byte ∷ rest.now) }
{
    let (first, rest) = text.split_first()?;
    if *first == byte { Some(rest) } else { None }
}

/// Whether a meeting line ends with its mark here, and what follows its line feed.
#[inline(always)]
fn line_end(text: &[u8]) -> Option<(bool, &[u8])>
    ensures { IfSome result (λ end. text.now ≡ (if end.0 then codes " *" else []) ++ 10 ∷ end.1.now) }
{
    if let Some(rest) = behind(text, b'\n') {
        return Some((false, rest));
    }
    let rest = behind(behind(text, b' ')?, b'*')?;
    Some((true, behind(rest, b'\n')?))
}

/// What a meeting line says if all its numbers are short, and what follows its line feed.
/// It may be `None` for another meeting line.
#[inline(always)]
pub(crate) fn short_meeting(text: &[u8]) -> Option<(MeetingLine, &[u8])>
    ensures { IfSome result (λ m. Tells (lines_of text.now) (Some m.0) (lines_of m.1.now)) }
{
    let (worker, rest) = leading_number(text)?;
    let (first, rest) = leading_number(behind(rest, b' ')?)?;
    let (second, rest) = leading_number(behind(rest, b' ')?)?;
    let (changed, rest) = line_end(rest)?;
    let told = MeetingLine {
        worker: u128::from(worker),
        first: u128::from(first),
        second: u128::from(second),
        changed,
    };
    Some((told, rest))
}

/// The two agents that the first line of a text names, if its numbers are short and printed and it has a line feed, and
/// what follows it. It may be `None` for another meeting line.
#[inline(always)]
pub fn short_pair(text: &[u8], agents: u32) -> Option<((u32, u32), &[u8])>
    ensures { IfSome result (λ m. IsFirstPair agents text.now m.0.0 m.0.1 m.1.now) }
{
    let (first, rest) = leading_number(text)?;
    let (second, rest) = leading_number(behind(rest, b' ')?)?;
    let rest = behind(rest, b'\n')?;
    if first == second || agents <= first || agents <= second {
        return None;
    }
    Some(((first, second), rest))
}
