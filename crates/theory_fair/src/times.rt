//! The law of stable times.

ghost use Rattle.theory_fair.specs.Times.{MiddleGivesMarkov, TimesAreFound};

/// By Markov's principle there is a time from which on a fair execution is stable. A theorem; the body is empty.
pub fn times_are_found()
    ensures { TimesAreFound }
{}

/// Excluded middle gives Markov's principle. A theorem; the body is empty.
pub fn middle_gives_markov()
    ensures { MiddleGivesMarkov }
{}
