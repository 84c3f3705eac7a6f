//! Cutting bytes into pieces and lines.

ghost use Rattle.std.specs.Prelude.{◌≡◌, ◌∷◌, [], MatchOption};
ghost use Rattle.std.specs.Option.{option_copied};
ghost use Rattle.base_lines.specs.Lines.{IsCut, lines_of};

/// The piece before the first `byte`, and the bytes after it. Allocates nothing.
pub fn cut(bytes: &[u8], byte: u8) -> (&[u8], Option<&[u8]>)
    ensures { IsCut byte bytes.now result.0.now (option_copied result.1) }
{
    for (i, b) in bytes.iter().enumerate() {
        if *b == byte {
            return (&bytes[..i], Some(&bytes[i + 1..]));
        }
    }
    (bytes, None)
}

/// The first line, and the bytes after its line feed. A walk over all lines looks at each byte once. Allocates nothing.
pub fn next_line(bytes: &[u8]) -> Option<(&[u8], &[u8])>
    ensures { MatchOption result ((bytes.now ≡ []) × (lines_of bytes.now ≡ []))
        (λ found. lines_of bytes.now ≡ found.0.now ∷ lines_of found.1.now) }
{
    if bytes.is_empty() {
        return None;
    }
    let (line, rest) = cut(bytes, b'\n');
    match rest {
        None => Some((line, &[])),
        Some(rest) => Some((line, rest)),
    }
}
