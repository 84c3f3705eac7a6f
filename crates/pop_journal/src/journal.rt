//! A journal that was read.

use pop_crowd::Meeting;
use pop_io::List;
use run_spec::{RunKind, RunSpec};

/// The greatest number of a journal's first line.
pub const LINE_LIMIT: u64 = 1_099_511_627_776;

/// A run's kind, options and rounds, the lines after `end`, and the number of the first line.
#[derive(Drop)]
pub struct Journal {
    pub kind: RunKind,
    pub spec: RunSpec,
    pub rounds: List<List<Meeting>>,
    pub tail: List<List<u8>>,
    pub first: u64,
}
