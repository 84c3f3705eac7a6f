//! How a call of the tool ended.

ghost use Rattle.std.specs.Prelude.{◌≡◌};
ghost use Rattle.tool_texts.specs.Statuses.{code_of};

use crate::output::Ending;

/// The statuses in the order of their codes.
#[derive(Clone, Copy, PartialEq, Eq)]
pub enum Status {
    /// The whole text was written, and nothing is wrong.
    Done,
    /// The words mean no command.
    Usage,
    /// The input is malformed, or past a limit.
    Refused,
    /// A proof is not valid.
    Rejected,
    /// The turns of a run are used up, and its crowd is not terminal.
    Undecided,
    /// A journal is not that of a run.
    Differs,
    /// The source failed.
    ReadFault,
    /// The sink failed: a prefix of the text was written.
    WriteFault,
    /// Out of memory, and nothing was written.
    NoMemory,
}

impl Status {
    /// The exit status of the program.
    pub fn code(self) -> u8
        ensures { result ≡ code_of self }
    {
        self as u8
    }
}

impl From<Ending> for Status {
    ghost use Rattle.std.specs.Prelude.{◌≡◌};
    ghost use Rattle.tool_texts.specs.Statuses.{status_of};

    ghost from_gives = { λ ending status. status ≡ status_of ending };

    fn from(ending: Ending) -> Status {
        match ending {
            Ending::Done => Status::Done,
            Ending::Usage => Status::Usage,
            Ending::Refused => Status::Refused,
            Ending::Rejected => Status::Rejected,
            Ending::Undecided => Status::Undecided,
            Ending::Differs => Status::Differs,
            Ending::ReadFault => Status::ReadFault,
        }
    }
}
