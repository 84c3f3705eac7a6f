//! What is wrong with a file, and where.

ghost use Rattle.std.specs.Prelude.{◌≡◌};
ghost use Rattle.base_json.specs.Faults.{Says};
ghost use Rattle.base_json.specs.Paths.{path_text};

use crate::path::Path;
use pop_io::{NoMemory, Text};
use std::alloc::{AllocError, AllocFailed, Global};
use std::fmt;

/// Why a value breaks its rule.
#[derive(Clone, Copy, PartialEq, Eq)]
pub enum Why {
    /// The value is missing, or of another JSON kind.
    Kind,
    /// A number or a list's length is out of range.
    Range,
    /// A text is malformed, or occurs twice.
    Name,
    /// A combination in postfix isn't a single tree.
    Shape,
    /// A predicate's text is refused.
    Pred(PredWhy),
}

/// Why a predicate's text is refused. The numbers are byte offsets, or the length for `LongText`.
#[derive(Clone, Copy, PartialEq, Eq)]
pub enum PredWhy {
    /// No text of the grammar begins like this.
    Syntax(u32),
    /// No variable has this name.
    UnknownName(u32),
    /// A number is outside its limits.
    TooLarge(u32),
    /// It nests too deeply.
    TooDeep(u32),
    /// It has too many bytes.
    LongText(u64),
}

/// A word, and the number after it.
impl fmt::Display for PredWhy {
    ghost use Rattle.std.specs.Prelude.{Some};
    ghost use Rattle.base_json.specs.Reasons.{pred_reason};

    ghost output = { λ why. Some (pred_reason why) };

    fn fmt<W: fmt::Write>(&self, f: &mut fmt::Formatter<W>) -> fmt::Result {
        match self {
            PredWhy::Syntax(at) => write!(f, "syntax {at}"),
            PredWhy::UnknownName(at) => write!(f, "unknown {at}"),
            PredWhy::TooLarge(at) => write!(f, "large {at}"),
            PredWhy::TooDeep(at) => write!(f, "deep {at}"),
            PredWhy::LongText(length) => write!(f, "long {length}"),
        }
    }
}

/// One word, or `pred` and what is wrong with a predicate's text.
impl fmt::Display for Why {
    ghost use Rattle.std.specs.Prelude.{Some};
    ghost use Rattle.base_json.specs.Reasons.{reason};

    ghost output = { λ why. Some (reason why) };

    fn fmt<W: fmt::Write>(&self, f: &mut fmt::Formatter<W>) -> fmt::Result {
        match self {
            Why::Kind => write!(f, "kind"),
            Why::Range => write!(f, "range"),
            Why::Name => write!(f, "name"),
            Why::Shape => write!(f, "shape"),
            Why::Pred(why) => write!(f, "pred {why}"),
        }
    }
}

/// Why a file was not read.
#[derive(Drop)]
pub enum FormatFault {
    /// The first rule that is broken. The path is a `/` and a name or a number for each step from the root.
    Broken { path: Text, why: Why },
    /// Out of memory.
    NoMemory,
}

impl From<AllocError> for FormatFault {
    ghost use Rattle.base_json.specs.declared.fault.FormatFault.TheVariants.{NoMemory as OutOfMemory};

    ghost from_gives = { λ _ e. e ≡ OutOfMemory };

    fn from(_e: AllocError) -> FormatFault {
        FormatFault::NoMemory
    }
}

impl<T: Drop> From<AllocFailed<T>> for FormatFault {
    ghost use Rattle.base_json.specs.declared.fault.FormatFault.TheVariants.{NoMemory as OutOfMemory};

    ghost from_gives = { λ _ e. e ≡ OutOfMemory };

    fn from(_e: AllocFailed<T>) -> FormatFault {
        FormatFault::NoMemory
    }
}

impl From<NoMemory> for FormatFault {
    ghost use Rattle.base_json.specs.declared.fault.FormatFault.TheVariants.{NoMemory as OutOfMemory};

    ghost from_gives = { λ _ e. e ≡ OutOfMemory };

    fn from(_e: NoMemory) -> FormatFault {
        FormatFault::NoMemory
    }
}

/// The fault of a broken rule at this path.
pub fn broken(alloc: Global, path: &Path<'_>, why: Why) -> FormatFault
    ensures { Says result (path_text path.now) why }
{
    match path.text(alloc) {
        Ok(path) => FormatFault::Broken { path, why },
        Err(_) => FormatFault::NoMemory,
    }
}
