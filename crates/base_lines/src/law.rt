//! What is proved of the lines of all texts.

ghost use Rattle.base_lines.specs.Lines.{LinesLaw};

/// Joined again, the lines are the bytes, up to a final line feed.
/// A theorem; the body is empty.
pub fn lines_are_joined()
    ensures { LinesLaw }
{}
