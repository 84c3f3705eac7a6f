ghost use Rattle.run_picks.specs.Examples.{PickExamples, RunExamples};

/// Picks worked out by hand.
pub fn pick_examples()
    ensures { PickExamples }
{}

/// Runs worked out by hand.
pub fn run_examples()
    ensures { RunExamples }
{}
