//! The two kinds of run.

ghost use Rattle.std.specs.Prelude.{◌≡◌};

use crate::spec::WATCHED_WORKERS;
use pop_io::WORKER_LIMIT;

/// How the last round of a run may end.
#[derive(Clone, Copy, PartialEq, Eq)]
pub enum RunKind {
    /// Each round is whole: a run of `run`.
    Whole,
    /// An observer may stop the last round: a run of `watch`.
    Watched,
}

impl RunKind {
    ghost use Rattle.std.specs.Prelude.{◌≡◌};
    ghost use Rattle.run_spec.specs.Kinds.{kind_word, most_workers_of};

    /// The word of the command, which also begins its journals.
    pub fn word(self) -> &'static str
        ensures { result.now ≡ kind_word self }
    {
        match self {
            RunKind::Whole => "run",
            RunKind::Watched => "watch",
        }
    }

    /// The greatest number of workers.
    pub fn most_workers(self) -> u16
        ensures { result ≡ most_workers_of self }
    {
        match self {
            RunKind::Whole => WORKER_LIMIT,
            RunKind::Watched => WATCHED_WORKERS,
        }
    }
}
