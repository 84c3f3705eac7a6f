//! Why words or an input are refused, and the line that says so.

ghost use Rattle.std.specs.Prelude.{Some};
ghost use Rattle.tool_texts.specs.Refusals.{line_reason, refusal_text};

use crate::output::{Ending, Output};
use base_json::{PredWhy, Why};
use pop_io::Text;
use pop_words::Usage;
use run_text::JournalWhy;
use std::alloc::{AllocError, Global};
use std::fmt;

/// What is wrong with a line of the input.
#[derive(Clone, Copy, PartialEq, Eq)]
pub enum LineWhy {
    /// There is no such line.
    Missing,
    /// There is one line too many.
    Extra,
    /// The line is malformed.
    Form,
    /// A meeting line names agents that don't exist, or one agent twice.
    Agents,
}

/// Why an input is refused. Lines are counted from 1, the words of a crowd line and the atoms of a predicate from 0.
#[derive(Drop)]
pub enum Refusal {
    /// The input has too many bytes.
    TooLong,
    /// What is wrong with the line of this number.
    Line(u64, LineWhy),
    /// The line of a net or a bundle is no JSON.
    NotJson,
    /// What is wrong at this path of a net or a bundle.
    Format(Text, Why),
    /// What is wrong with the predicate.
    Pred(PredWhy),
    /// This word of the crowd line is wrong.
    Count(u32),
    /// A crowd of this many agents is not run.
    Size(u128),
    /// What is wrong with the line of this number, in a journal.
    Journal(u64, JournalWhy),
    /// A predicate with this many atoms is not compiled.
    Atoms(u32),
    /// No range suffices for the numbers of the atom.
    Range(u32),
    /// The atom has this width, too much for a leaf.
    Width(u32, u64),
    /// The atom's leaf would have this many states, too many for a leaf.
    States(u32, u64),
    /// The atom makes a wide leaf, and there are too many atoms for one.
    Wide(u32),
    /// A crowd for which a proof allows this many takes is not settled.
    Settle(u128),
}

impl fmt::Display for LineWhy {
    ghost output = { λ why. Some (line_reason why) };

    fn fmt<W: fmt::Write>(&self, f: &mut fmt::Formatter<W>) -> fmt::Result {
        match self {
            LineWhy::Missing => write!(f, "missing"),
            LineWhy::Extra => write!(f, "extra"),
            LineWhy::Form => write!(f, "form"),
            LineWhy::Agents => write!(f, "agents"),
        }
    }
}

/// The line without its line feed.
impl fmt::Display for Refusal {
    ghost output = { λ refusal. Some (refusal_text refusal) };

    fn fmt<W: fmt::Write>(&self, f: &mut fmt::Formatter<W>) -> fmt::Result {
        match self {
            Refusal::TooLong => write!(f, "fault: too long"),
            Refusal::Line(number, why) => write!(f, "fault: line {number} {why}"),
            Refusal::NotJson => write!(f, "fault: not json"),
            Refusal::Format(path, why) => {
                let path = path.as_str();
                write!(f, "fault: format {path} {why}")
            }
            Refusal::Pred(why) => write!(f, "fault: pred {why}"),
            Refusal::Count(word) => write!(f, "fault: count {word}"),
            Refusal::Size(agents) => write!(f, "fault: size {agents}"),
            Refusal::Journal(number, why) => write!(f, "fault: journal {number} {why}"),
            Refusal::Atoms(count) => write!(f, "fault: atoms {count}"),
            Refusal::Range(atom) => write!(f, "fault: range {atom}"),
            Refusal::Width(atom, width) => write!(f, "fault: width {atom} {width}"),
            Refusal::States(atom, states) => write!(f, "fault: states {atom} {states}"),
            Refusal::Wide(atom) => write!(f, "fault: wide {atom}"),
            Refusal::Settle(takes) => write!(f, "fault: settle {takes}"),
        }
    }
}

impl Output {
    ghost use Rattle.std.specs.Prelude.{◌≡◌, IfOk};
    ghost use Rattle.tool_texts.specs.Refusals.{usage_output, refusal_output, read_fault};

    /// What is written for words without a command: the line that names the first bad word.
    pub fn of_usage(alloc: Global, usage: &Usage) -> Result<Output, AllocError>
        ensures { IfOk result (λ output. output ≡ usage_output usage.now) }
    {
        let text = format!(in alloc; "fault: usage {usage}\n")?;
        Ok(Output::new(text.into_bytes(), Ending::Usage))
    }

    /// What is written for an input that is refused: the line that says why.
    pub fn of_refusal(alloc: Global, refusal: &Refusal) -> Result<Output, AllocError>
        ensures { IfOk result (λ output. output ≡ refusal_output refusal.now) }
    {
        let text = format!(in alloc; "{refusal}\n")?;
        Ok(Output::new(text.into_bytes(), Ending::Refused))
    }

    /// What is written for a source that failed.
    pub fn of_read_fault(alloc: Global) -> Result<Output, AllocError>
        ensures { IfOk result (λ output. output ≡ read_fault) }
    {
        let text = Vec::from_slice(alloc, b"fault: read\n")?;
        Ok(Output::new(text, Ending::ReadFault))
    }
}
