//! Commands, and why a list of words is none.

use run_spec::RunSpec;
use std::fmt;

/// The greatest number of a demo case.
pub const DEMO_LIMIT: u32 = 9_999;

/// What the program is asked to do.
#[derive(Clone, Copy, PartialEq, Eq)]
pub enum Command {
    Play,
    Eval,
    Check,
    /// Checks, and shows what is certified.
    Show,
    Run(RunSpec),
    /// Runs, and stops the last round once the crowd is terminal.
    Watch(RunSpec),
    Replay,
    /// Replays a journal of `watch`.
    ReplayWatched,
    /// Settles a crowd by the layers of a proof.
    Settle,
    Compile,
    /// Compiles, with succinct leaves for flock atoms.
    Flocks,
    /// Compiles, with succinct leaves for all atoms.
    Succinct,
    /// Compiles, checks and runs the case with this number.
    Demo(u32),
}

/// The first bad word, counted from 0, and what is wrong there.
#[derive(Clone, Copy, PartialEq, Eq)]
pub struct Usage {
    pub word: u32,
    pub why: UsageWhy,
}

/// What is wrong with a word.
#[derive(Clone, Copy, PartialEq, Eq)]
pub enum UsageWhy {
    /// A word is missing after the last one.
    Missing,
    /// The word doesn't belong in its place.
    Unknown,
    /// The option was given before.
    Twice,
    /// The number is malformed or out of its limits.
    Value,
    /// All words were read, but two numbers are too great together.
    Product,
}

/// One word.
impl fmt::Display for UsageWhy {
    ghost use Rattle.std.specs.Prelude.{Some};
    ghost use Rattle.pop_words.specs.Reasons.{usage_reason};

    ghost output = { λ why. Some (usage_reason why) };

    fn fmt<W: fmt::Write>(&self, f: &mut fmt::Formatter<W>) -> fmt::Result {
        match self {
            UsageWhy::Missing => write!(f, "missing"),
            UsageWhy::Unknown => write!(f, "unknown"),
            UsageWhy::Twice => write!(f, "twice"),
            UsageWhy::Value => write!(f, "value"),
            UsageWhy::Product => write!(f, "product"),
        }
    }
}

/// The word's number, and the reason.
impl fmt::Display for Usage {
    ghost use Rattle.std.specs.Prelude.{Some};
    ghost use Rattle.pop_words.specs.Reasons.{bad_word};

    ghost output = { λ usage. Some (bad_word usage) };

    fn fmt<W: fmt::Write>(&self, f: &mut fmt::Formatter<W>) -> fmt::Result {
        let word = self.word;
        let why = self.why;
        write!(f, "{word} {why}")
    }
}
