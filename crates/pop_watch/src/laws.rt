ghost use Rattle.pop_watch.specs.Laws.{WholeRunsAreWatched};

/// A run by whole rounds is a watched run.
pub fn whole_runs_are_watched()
    ensures { WholeRunsAreWatched }
{}
