//! The law of random meetings.

ghost use Rattle.theory_random.specs.Examples.{RandomExamples};
ghost use Rattle.theory_random.specs.Laws.{RandomMeetingsCompute, FallingIsCubic, AreUniform};

/// Suppose at most k meetings per agent can always lead to a terminal crowd and each is right. Then uniformly random
/// meetings settle every crowd with the predicate's value, with probability 1. A theorem; the body is empty.
pub fn random_meetings_compute()
    ensures { RandomMeetingsCompute }
{}

/// Suppose some height of the crowd, at most k per agent, falls by a meeting until the crowd is terminal. Then the
/// expected number of meetings is at most cubic in the number of agents. A theorem; the body is empty.
pub fn falling_is_cubic()
    ensures { FallingIsCubic }
{}

/// Each pair of different agents is drawn once, and so is each run. A theorem; the body is empty.
pub fn runs_are_uniform()
    ensures { AreUniform }
{}

/// Three agents of the majority protocol: how many runs leave them unsettled. A theorem; the body is empty.
pub fn random_examples()
    ensures { RandomExamples }
{}
