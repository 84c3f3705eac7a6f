//! Laws of the definitions. Theorems: each body is empty.

ghost use Rattle.pop_journal.specs.Laws.{IsOneSpelling, IsOneSpellingUntil, IsWrittenHeld, IsWrittenHeldUntil};

/// A text that ends with a line feed, is read and holds is the text that `write_journal` writes of its run.
pub fn one_spelling()
    ensures { IsOneSpelling }
{}

/// The same for runs that end where their crowd is terminal in another net.
pub fn one_spelling_until()
    ensures { IsOneSpellingUntil }
{}

/// What `write_journal` writes of a run within the limits, with the right last line, is read by `read_journal` and
/// passes `verify`.
pub fn written_holds()
    ensures { IsWrittenHeld }
{}

/// The same for runs that end where their crowd is terminal in another net, which pass `verify_settled`.
pub fn written_holds_until()
    ensures { IsWrittenHeldUntil }
{}
