//! The making of a run that was prepared.

ghost use Rattle.std.specs.Prelude.{◌≡◌, ℕ, List as Items, length, IfOk};
ghost use Rattle.run_spec.specs.declared.kind.RunKind.TheVariants.{Whole};
ghost use Rattle.tool_courses.specs.Proved.{proved_pred};
ghost use Rattle.tool_courses.specs.Prepared.{CanRun, IsWrittenTo, IsOutputOfSetting, IsOutputOfRun};

use pop_crowd::Crowd;
use pop_io::{Gate, List, NoMemory};
use pop_watch::{push_run, push_run_alone};
use run_picks::{End, RunContext};
use run_text::push_end;
use std::alloc::Global;
use std::sync::Wait;
use std::thread::Threads;
use tool_courses::{PendingRun, Setting, last_and_ending};
use tool_texts::Output;

/// The output of a run that was made to its end: the text with its last crowd and its last line added.
fn run_output(
    alloc: Global,
    text: Vec<u8>,
    setting: &Setting,
    crowd: &Crowd,
    end: End,
) -> Result<Output, NoMemory>
    requires variables { (proved_pred setting.now.proved).variables ≡ length setting.now.counts }
    requires written { (lines : Items ℕ) × IsWrittenTo setting.now lines text.items crowd.now end }
    ensures { IfOk result
        (λ output. (lines : Items ℕ) → IsWrittenTo setting.now lines text.items crowd.now end
        → IsOutputOfSetting setting.now lines output) }
{
    let mut text = text;
    let told = setting.proved.last(setting.counts.as_slice());
    let (last, ending) = last_and_ending(told, end);
    push_end(alloc, &mut text, setting.proved.net(), crowd, last)?;
    Ok(Output::new(text, ending))
}

/// The output of a whole run by one worker, made from the crowd in which its setting starts and written after these
/// lines.
fn alone_output<G: Gate>(
    alloc: Global,
    lines: List<u8>,
    setting: &Setting,
    crowd: Crowd,
    gate: &G,
) -> Result<Output, NoMemory>
    requires can { CanRun (record { lines = lines; setting = setting.now; crowd = crowd }) }
    requires alone { setting.now.spec.workers ≡ 1 }
    requires kind { setting.now.kind ≡ Whole }
    ensures { IfOk result (IsOutputOfSetting setting.now lines) }
{
    let (net, rest) = (setting.proved.net(), setting.proved.rest());
    let spec = &setting.spec;
    let context = RunContext {
        net,
        rest,
        spec,
        gate,
    };
    let text = lines.into_vec();
    let (text, last_crowd, end) = push_run_alone(alloc, text, &context, crowd)?;
    run_output(alloc, text, setting, &last_crowd, end)
}

/// Makes a whole run by one worker, and writes it while it runs. It waits for no thread.
pub fn make_alone<G: Gate>(alloc: Global, run: PendingRun, gate: &G) -> Result<Output, NoMemory>
    requires can { CanRun run }
    requires alone { run.setting.spec.workers ≡ 1 }
    requires kind { run.setting.kind ≡ Whole }
    ensures { IfOk result (IsOutputOfRun run) }
{
    let PendingRun {
        lines,
        setting,
        crowd,
    } = run;
    alone_output(alloc, lines, &setting, crowd, gate)
}

/// The output of a run by workers on threads, made from the crowd in which its setting starts and written after these
/// lines.
fn threads_output<R: Threads + Wait + Sync, G: Gate>(
    rt: &R,
    alloc: Global,
    lines: List<u8>,
    setting: &Setting,
    crowd: Crowd,
    gate: &G,
) -> Result<Output, NoMemory>
    requires { CanRun (record { lines = lines; setting = setting.now; crowd = crowd }) }
    ensures { IfOk result (IsOutputOfSetting setting.now lines) }
{
    let (net, rest) = (setting.proved.net(), setting.proved.rest());
    let spec = &setting.spec;
    let context = RunContext {
        net,
        rest,
        spec,
        gate,
    };
    let text = lines.into_vec();
    let (text, last_crowd, end) = push_run(rt, alloc, text, setting.kind, &context, crowd)?;
    run_output(alloc, text, setting, &last_crowd, end)
}

/// Makes a run by workers on threads, which may wait for one another, and writes it while it runs.
pub fn make_on_threads<R: Threads + Wait + Sync, G: Gate>(
    rt: &R,
    alloc: Global,
    run: PendingRun,
    gate: &G,
) -> Result<Output, NoMemory>
    requires { CanRun run }
    ensures { IfOk result (IsOutputOfRun run) }
{
    let PendingRun {
        lines,
        setting,
        crowd,
    } = run;
    threads_output(rt, alloc, lines, &setting, crowd, gate)
}
