//! What a command prepares.

use crate::proved::Proved;
use pop_checker::Checked;
use pop_crowd::Crowd;
use pop_io::List;
use run_spec::{RunKind, RunSpec};
use tool_texts::Output;

/// The setting of a run: a net whose proof is valid, and how it is run.
#[derive(Drop)]
pub struct Setting {
    pub kind: RunKind,
    pub spec: RunSpec,
    pub proved: Proved,
    pub counts: List<u64>,
}

/// A run that is still to be made.
#[derive(Drop)]
pub struct PendingRun {
    /// The two input lines, each with its line feed.
    pub lines: List<u8>,
    pub setting: Setting,
    /// The crowd in which the run starts.
    pub crowd: Crowd,
}

/// A demo case: its net, which was checked, and the counts with which it starts.
#[derive(Drop)]
pub struct Case {
    pub number: u32,
    pub checked: Checked,
    pub counts: List<u64>,
}

/// The run of a case that is still to be made, from this crowd.
#[derive(Drop)]
pub struct PendingDemo {
    pub case: Case,
    pub crowd: Crowd,
}

/// The whole text, or what is still to be made.
#[derive(Drop)]
pub enum Prepared {
    Text(Output),
    /// A whole run by one worker, which waits for nobody.
    Alone(PendingRun),
    /// A run by two or more workers, or one that is watched: they wait for one another.
    Threads(PendingRun),
    /// The run of a demo case.
    Demo(PendingDemo),
}
