//! From what is prepared to its output.

ghost use Rattle.std.specs.Prelude.{IfOk};
ghost use Rattle.tool_courses.specs.Prepared.{CanBeMade, IsOutputOf, NeedsNoThreads};

use pop_io::{Gate, NoMemory};
use std::alloc::Global;
use std::sync::Wait;
use std::thread::Threads;
use tool_courses::Prepared;
use tool_demos::make_demo;
use tool_runs::{make_alone, make_on_threads};
use tool_texts::Output;

/// Makes what needs no threads. It waits for nobody.
pub(crate) fn perform_alone<G: Gate>(
    alloc: Global,
    prepared: Prepared,
    gate: &G,
) -> Result<Output, NoMemory>
    requires can { CanBeMade prepared }
    requires plain { NeedsNoThreads prepared }
    ensures { IfOk result (IsOutputOf prepared) }
{
    match prepared {
        Prepared::Text(output) => Ok(output),
        Prepared::Alone(run) => make_alone(alloc, run, gate),
        Prepared::Demo(demo) => make_demo(alloc, demo, gate),
        Prepared::Threads(_run) => unreachable!(),
    }
}

/// Makes whatever is still to be made, on threads if need be.
pub(crate) fn perform<R: Threads + Wait + Sync, G: Gate>(
    rt: &R,
    alloc: Global,
    prepared: Prepared,
    gate: &G,
) -> Result<Output, NoMemory>
    requires { CanBeMade prepared }
    ensures { IfOk result (IsOutputOf prepared) }
{
    match prepared {
        Prepared::Threads(run) => make_on_threads(rt, alloc, run, gate),
        here => perform_alone(alloc, here, gate),
    }
}
