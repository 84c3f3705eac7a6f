//! What the lines of a journal are read by, and where a reader stands.

ghost use Rattle.run_spec.specs.RunLimits.{IsWithinLimits};

use run_spec::{RunKind, RunSpec};

/// The kind of a journal's run, its options, and how many agents it has.
#[derive(Clone, Copy)]
pub(crate) struct ReadContext<'a> {
    pub(crate) kind: RunKind,
    pub(crate) spec: &'a RunSpec,
    pub(crate) agents: u32,
    ghost limits: { IsWithinLimits spec.now },
}

/// The bytes that are still to be read, and the number of their first line.
#[derive(Clone, Copy)]
pub(crate) struct TextPlace<'t> {
    pub(crate) text: &'t [u8],
    pub(crate) number: u64,
}
