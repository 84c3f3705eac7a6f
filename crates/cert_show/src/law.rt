//! Laws of the definitions.

ghost use Rattle.cert_show.specs.LinesTell.{LinesTell};
ghost use Rattle.cert_show.specs.TextTells.{TextTells};

/// Names, lines of states, moves and predicates that are written alike are the same. A theorem; the body is empty.
pub fn lines_tell()
    ensures { LinesTell }
{}

/// What is shown by the same text is the same, but for the trees of its proof. A theorem; the body is empty.
pub fn text_tells()
    ensures { TextTells }
{}
