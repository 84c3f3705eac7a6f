//! What a command gives: a text, and how the command ended.

use pop_io::List;

/// How a command ended, if its whole text is written.
#[derive(Clone, Copy, PartialEq, Eq)]
pub enum Ending {
    /// Nothing is wrong.
    Done,
    /// The words mean no command.
    Usage,
    /// The input is malformed, or past a limit.
    Refused,
    /// A proof is not valid.
    Rejected,
    /// The turns of a run are used up, and its crowd is not terminal.
    Undecided,
    /// A journal is not that of a run.
    Differs,
    /// The source failed.
    ReadFault,
}

/// A whole text, and how its command ended.
#[derive(Drop)]
pub struct Output {
    pub text: List<u8>,
    pub ending: Ending,
}

impl Output {
    ghost use Rattle.std.specs.Prelude.{◌≡◌};

    /// The output with this text. Allocates nothing.
    pub fn new(text: Vec<u8>, ending: Ending) -> Output
        ensures { result ≡ record { text = text.items; ending = ending } }
    {
        Output {
            text: List::from_vec(text),
            ending,
        }
    }
}
