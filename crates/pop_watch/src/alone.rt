//! The text of a run by one worker, written during the run.

ghost use Rattle.std.specs.Prelude.{◌≡◌, IfOk};
ghost use Rattle.pop_net.specs.Lanes.{AreValid};
ghost use Rattle.pop_watch.specs.WrittenAlone.{IsWrittenRunUntil};

use crate::sink::WrittenRounds;
use pair_workers::{End, RunContext, run_into};
use pop_crowd::Crowd;
use pop_io::{Gate, NoMemory};
use run_spec::RunKind;
use std::alloc::Global;

/// Makes a run by the worker 0 alone, as `run_alone`, and adds its lines up to `end` to a text. The run is over once no
/// move of its net `rest` is possible. Returns the text, the run's last crowd, and why it ended.
pub fn push_run_alone<G: Gate>(
    alloc: Global,
    text: Vec<u8>,
    run: &RunContext<G>,
    crowd: Crowd,
) -> Result<(Vec<u8>, Crowd, End), NoMemory>
    requires alone { run.now.spec.now.workers ≡ 1 }
    requires valid { AreValid run.now.net.now crowd }
    ensures { IfOk result
        (λ end. IsWrittenRunUntil run.now.rest.now run.now.net.now crowd run.now.spec.now text.items end.0.items
        end.1 end.2) }
{
    let mut written = WrittenRounds::begin(alloc, text, RunKind::Whole, run.spec, crowd.len())?;
    let (crowd, end) = run_into(alloc, run, crowd, &mut written)?;
    let text = written.end()?;
    Ok((text, crowd, end))
}
