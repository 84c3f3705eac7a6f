//! What is wrong with a journal.

use pop_io::List;
use std::fmt;

/// Why a line is invalid.
#[derive(Clone, Copy, PartialEq, Eq)]
pub enum JournalWhy {
    /// There is no such line.
    Missing,
    /// The line is malformed.
    Form,
    /// A meeting line names a worker that doesn't exist, or that has all its meetings of the round.
    Worker,
    /// A meeting line names agents that don't exist, or one agent twice.
    Agents,
    /// A round begins after all turns are spent.
    Round,
}

/// One word.
impl fmt::Display for JournalWhy {
    ghost use Rattle.std.specs.Prelude.{Some};
    ghost use Rattle.run_text.specs.Reasons.{journal_reason};

    ghost output = { λ why. Some (journal_reason why) };

    fn fmt<W: fmt::Write>(&self, f: &mut fmt::Formatter<W>) -> fmt::Result {
        match self {
            JournalWhy::Missing => write!(f, "missing"),
            JournalWhy::Form => write!(f, "form"),
            JournalWhy::Worker => write!(f, "worker"),
            JournalWhy::Agents => write!(f, "agents"),
            JournalWhy::Round => write!(f, "round"),
        }
    }
}

/// Why a text isn't a journal.
#[derive(Clone, Copy, PartialEq, Eq)]
pub enum JournalFault {
    /// The first invalid line.
    Out { line: u64, why: JournalWhy },
}

/// Why a journal doesn't hold.
#[derive(Drop)]
pub enum VerifyFault {
    /// The first line that isn't the expected one.
    Differs {
        line: u64,
        kept: List<u8>,
        found: List<u8>,
    },
}
