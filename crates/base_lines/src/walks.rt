//! All lines of a text, and texts of so many lines.

ghost use Rattle.std.specs.Prelude.{◌≡◌, ◌∷◌, [], MatchResult};
ghost use Rattle.base_lines.specs.Lines.{lines_of, IsLineFault, IsTooFew};

use crate::cuts::next_line;
use crate::fault::LineFault;

/// The first line, and the bytes after it. A missing line is line 1.
pub fn one_line_and_more(bytes: &[u8]) -> Result<(&[u8], &[u8]), LineFault>
    ensures { MatchResult result (λ found. lines_of bytes.now ≡ found.0.now ∷ lines_of found.1.now)
        (IsTooFew 1 (lines_of bytes.now)) }
{
    match next_line(bytes) {
        Some((first, rest)) => Ok((first, rest)),
        None => Err(LineFault::Missing(1)),
    }
}

/// The first two lines, and the bytes after them.
pub fn two_lines_and_more(bytes: &[u8]) -> Result<(&[u8], &[u8], &[u8]), LineFault>
    ensures { MatchResult result (λ found. lines_of bytes.now ≡ found.0.now ∷ found.1.now ∷ lines_of found.2.now)
        (IsTooFew 2 (lines_of bytes.now)) }
{
    let (first, rest) = one_line_and_more(bytes)?;
    match next_line(rest) {
        Some((second, rest)) => Ok((first, second, rest)),
        None => Err(LineFault::Missing(2)),
    }
}

/// The first three lines, and the bytes after them.
pub fn three_lines_and_more(bytes: &[u8]) -> Result<(&[u8], &[u8], &[u8], &[u8]), LineFault>
    ensures { MatchResult result
        (λ found. lines_of bytes.now ≡ found.0.now ∷ found.1.now ∷ found.2.now ∷ lines_of found.3.now)
        (IsTooFew 3 (lines_of bytes.now)) }
{
    let (first, second, rest) = two_lines_and_more(bytes)?;
    match next_line(rest) {
        Some((third, rest)) => Ok((first, second, third, rest)),
        None => Err(LineFault::Missing(3)),
    }
}

/// The line of a text that has exactly one.
pub fn one_line(bytes: &[u8]) -> Result<&[u8], LineFault>
    ensures { MatchResult result (λ line. lines_of bytes.now ≡ line.now ∷ []) (IsLineFault 1 (lines_of bytes.now)) }
{
    let (first, rest) = one_line_and_more(bytes)?;
    match next_line(rest) {
        None => Ok(first),
        Some(_) => Err(LineFault::Extra(2)),
    }
}

/// The lines of a text that has exactly two.
pub fn two_lines(bytes: &[u8]) -> Result<(&[u8], &[u8]), LineFault>
    ensures { MatchResult result (λ found. lines_of bytes.now ≡ found.0.now ∷ found.1.now ∷ [])
        (IsLineFault 2 (lines_of bytes.now)) }
{
    let (first, second, rest) = two_lines_and_more(bytes)?;
    match next_line(rest) {
        None => Ok((first, second)),
        Some(_) => Err(LineFault::Extra(3)),
    }
}

/// The lines of a text that has exactly three.
pub fn three_lines(bytes: &[u8]) -> Result<(&[u8], &[u8], &[u8]), LineFault>
    ensures { MatchResult result (λ found. lines_of bytes.now ≡ found.0.now ∷ found.1.now ∷ found.2.now ∷ [])
        (IsLineFault 3 (lines_of bytes.now)) }
{
    let (first, second, third, rest) = three_lines_and_more(bytes)?;
    match next_line(rest) {
        None => Ok((first, second, third)),
        Some(_) => Err(LineFault::Extra(4)),
    }
}
