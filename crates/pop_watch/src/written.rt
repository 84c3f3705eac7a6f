//! The text of a run on threads, written during the run.

ghost use Rattle.std.specs.Prelude.{◌≤◌, IfOk};
ghost use Rattle.pop_net.specs.Lanes.{AreValid};
ghost use Rattle.run_spec.specs.Kinds.{most_workers_of};
ghost use Rattle.pop_watch.specs.WrittenRuns.{IsWrittenRunOfUntil};

use crate::sink::WrittenRounds;
use crate::threads::run_on_threads;
use pair_workers::{End, RunContext};
use pop_crowd::Crowd;
use pop_io::{Gate, NoMemory};
use run_spec::RunKind;
use std::alloc::Global;
use std::sync::Wait;
use std::thread::Threads;

/// Makes a run of this kind on threads, and adds its lines up to `end` to a text. An observer that has seen a terminal
/// crowd stops the workers of a watched run before their round is whole. It calls `pass` of the gate before each of its
/// looks in a round and once after them, with the number after the last worker's, and counts the looks from 1. The run
/// is over once no move of its net `rest` is possible. Returns the text, the run's last crowd, and why it ended.
pub fn push_run<R: Threads + Wait + Sync, G: Gate>(
    rt: &R,
    alloc: Global,
    text: Vec<u8>,
    kind: RunKind,
    run: &RunContext<G>,
    crowd: Crowd,
) -> Result<(Vec<u8>, Crowd, End), NoMemory>
    requires valid { AreValid run.now.net.now crowd }
    requires workers { run.now.spec.now.workers ≤ most_workers_of kind }
    ensures { IfOk result
        (λ end. IsWrittenRunOfUntil kind run.now.rest.now run.now.net.now crowd run.now.spec.now text.items
        end.0.items end.1 end.2) }
{
    let mut written = WrittenRounds::begin(alloc, text, kind, run.spec, crowd.len())?;
    let (crowd, end) = run_on_threads(rt, alloc, kind, run, crowd, &mut written)?;
    let text = written.end()?;
    Ok((text, crowd, end))
}
