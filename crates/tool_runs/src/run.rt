//! The commands `run` and `watch`.

ghost use Rattle.std.specs.Prelude.{◌≡◌, ◌≤◌, ◌↔◌, ◌++◌, IfOk, IsTrue};
ghost use Rattle.base_lines.specs.Lines.{lines_of, ended};
ghost use Rattle.run_spec.specs.declared.kind.RunKind.TheVariants.{Whole};
ghost use Rattle.run_spec.specs.Kinds.{most_workers_of};
ghost use Rattle.run_spec.specs.RunLimits.{IsWithinLimits};
ghost use Rattle.tool_bundles.specs.Start.{IsStart};
ghost use Rattle.tool_bundles.specs.Bundles.{IsBundleWithin};
ghost use Rattle.tool_runs.specs.Run.{OfBegun, RunGives};
ghost use Rattle.tool_courses.specs.Prepared.{NeedsNoThreads, Prepares, IsPending};

use cert_json::StableBundle;
use pop_crowd::Crowd;
use pop_io::{Failure, List};
use run_spec::{RunKind, RunSpec};
use std::alloc::{AllocError, Global};
use tool_bundles::{Start, begin};
use tool_courses::{PendingRun, Prepared, Setting, prove};
use tool_rejections::rejection_output;
use tool_texts::{Stop, just_two_lines};

/// Whether a run has one worker. A whole run by one worker is made without threads; any other run is made on threads.
pub fn is_by_one(spec: &RunSpec) -> bool
    ensures { IsTrue result ↔ (spec.now.workers ≡ 1) }
{
    spec.workers == 1
}

/// Two lines, each with its line feed.
fn both_lines(alloc: Global, first: &[u8], second: &[u8]) -> Result<List<u8>, AllocError>
    ensures { IfOk result (λ text. text ≡ ended first.now ++ ended second.now) }
{
    let mut text = Vec::from_slice(alloc, first)?;
    text.extend_from_slice(b"\n")?;
    text.extend_from_slice(second)?;
    text.extend_from_slice(b"\n")?;
    Ok(List::from_vec(text))
}

/// The run that is still to be made, alone or on threads.
fn pending(run: PendingRun) -> Prepared
    ensures { IsPending run result }
{
    match run.setting.kind {
        RunKind::Whole if is_by_one(&run.setting.spec) => Prepared::Alone(run),
        _ => Prepared::Threads(run),
    }
}

/// The run of a net with a valid proof that is still to be made.
fn pending_of(
    alloc: Global,
    lines: (&[u8], &[u8]),
    setting: Setting,
    crowd: Crowd,
) -> Result<Prepared, AllocError>
    ensures { IfOk result (IsPending (record {
      lines = ended lines.entry.0.now ++ ended lines.entry.1.now;
      setting = setting;
      crowd = crowd;
    })) }
{
    let lines = both_lines(alloc, lines.0, lines.1)?;
    let run = pending(PendingRun {
        lines,
        setting,
        crowd,
    });
    Ok(run)
}

/// The run of a bundle's net, if its proof is valid.
fn prepare_begun(
    alloc: Global,
    kind: RunKind,
    spec: RunSpec,
    lines: (&[u8], &[u8]),
    bundle: StableBundle,
    start: Start,
) -> Result<Prepared, Stop>
    requires spec { IsWithinLimits spec }
    requires workers { spec.workers ≤ most_workers_of kind }
    requires limits { IsBundleWithin bundle }
    requires start { IsStart bundle.net start }
    ensures leads { Prepares
        (OfBegun kind spec (ended lines.entry.0.now ++ ended lines.entry.1.now) (bundle, start.counts)) result }
    ensures plain { kind ≡ Whole → spec.workers ≡ 1 → IfOk result NeedsNoThreads }
{
    let Start { counts, crowd } = start;
    match prove(alloc, bundle, counts.as_slice()) {
        Ok(proved) => {
            let setting = Setting {
                kind,
                spec,
                proved,
                counts,
            };
            let run = pending_of(alloc, lines, setting, crowd)?;
            Ok(run)
        }
        Err(Failure::Fault(rejected)) => Ok(Prepared::Text(rejection_output(alloc, rejected)?)),
        Err(Failure::NoMemory) => Err(Failure::NoMemory),
    }
}

/// What the command that makes a run of this kind prepares for an input that isn't too long.
pub fn prepare_run(
    alloc: Global,
    kind: RunKind,
    spec: RunSpec,
    input: &[u8],
) -> Result<Prepared, Stop>
    requires spec { IsWithinLimits spec }
    requires workers { spec.workers ≤ most_workers_of kind }
    ensures leads { Prepares (RunGives kind spec (lines_of input.now)) result }
    ensures plain { kind ≡ Whole → spec.workers ≡ 1 → IfOk result NeedsNoThreads }
{
    let lines = just_two_lines(input)?;
    let (bundle, start) = begin(alloc, lines)?;
    prepare_begun(alloc, kind, spec, lines, bundle, start)
}
