//! The command `replay`, with the flag `--watched` or without.

ghost use Rattle.std.specs.Prelude.{◌≡◌, length, Ok, IfOk};
ghost use Rattle.base_lines.specs.Lines.{lines_of};
ghost use Rattle.pop_net.specs.Lanes.{crowd_of, AreValid};
ghost use Rattle.run_spec.specs.RunLimits.{IsWithinLimits};
ghost use Rattle.pop_journal.specs.Rounds.{AreRoundsOf};
ghost use Rattle.pop_journal.specs.Form.{journal_in};
ghost use Rattle.pop_journal.specs.Calls.{CanVerify, IsVerifiedUntil};
ghost use Rattle.tool_texts.specs.Steps.{GivesStep, Obeys};
ghost use Rattle.tool_bundles.specs.Start.{IsStart};
ghost use Rattle.tool_bundles.specs.Bundles.{IsBundleWithin};
ghost use Rattle.tool_courses.specs.Proved.{proved_net, proved_rest, proved_outcome, proved_course, IsProved};
ghost use Rattle.tool_texts.specs.Differences.{difference_output};
ghost use Rattle.tool_replays.specs.Replay.{holds_output, journal_read, journal_output, replay_output};
ghost use Rattle.tool_replays.specs.Replay.{OfBegun, ReplayGives, journal_refusal};

use cert_json::StableBundle;
use pop_crowd::Crowd;
use pop_io::Failure;
use pop_journal::{Journal, JournalFault, VerifyFault, read_journal, verify, verify_settled};
use run_spec::RunKind;
use std::alloc::Global;
use tool_bundles::{Start, begin};
use tool_courses::{Proved, prove};
use tool_rejections::rejection_output;
use tool_texts::{Ending, Output, Refusal, Stop, two_and_some_lines};

/// The number of the line in which the journal begins, after the bundle and the crowd line.
pub const JOURNAL_LINE: u64 = 3;

/// The output for a journal that holds, with its number of meetings.
fn holds(alloc: Global, meetings: u64) -> Result<Output, Stop>
    ensures { GivesStep (λ output. output) result (Ok (holds_output meetings)) }
{
    let text = format!(in alloc; "holds {meetings}\n")?;
    Ok(Output::new(text.into_bytes(), Ending::Done))
}

/// The output for a journal whose line of this number isn't the expected one.
fn differs(alloc: Global, line: u64, kept: &[u8], found: &[u8]) -> Result<Output, Stop>
    ensures { GivesStep (λ output. output) result
        (Ok (difference_output (record { line = line; kept = kept.now; found = found.now }))) }
{
    Ok(Output::of_difference(alloc, line, kept, found)?)
}

/// How a text that is no journal is refused.
fn refusal_of(fault: JournalFault) -> Refusal
    ensures { result ≡ journal_refusal fault }
{
    match fault {
        JournalFault::Out { line, why } => Refusal::Journal(line, why),
    }
}

/// The journal of a run of this kind that a text gives, for this many agents.
fn journal_of(alloc: Global, kind: RunKind, text: &[u8], agents: u32) -> Result<Journal, Stop>
    ensures read { GivesStep (λ journal. journal) result
        (journal_read kind (journal_in kind agents JOURNAL_LINE (lines_of text.now))) }
    ensures first { IfOk result (λ journal. journal.first ≡ JOURNAL_LINE) }
    ensures limits { IfOk result (λ journal. IsWithinLimits journal.spec) }
    ensures rounds { IfOk result (λ journal. AreRoundsOf journal.kind journal.spec agents journal.rounds) }
{
    match read_journal(alloc, kind, text, JOURNAL_LINE, agents) {
        Ok(journal) => Ok(journal),
        Err(Failure::Fault(fault)) => Err(Failure::Fault(refusal_of(fault))),
        Err(Failure::NoMemory) => Err(Failure::NoMemory),
    }
}

/// The number of meetings of a journal of such a net's run that holds.
fn verified(
    alloc: Global,
    proved: &Proved,
    counts: &[u64],
    crowd: Crowd,
    journal: &Journal,
) -> Result<u64, Failure<VerifyFault>>
    requires proved { IsProved proved.now }
    requires counts { length counts.now ≡ length (proved_net proved.now).variables }
    requires can { CanVerify (proved_net proved.now) crowd journal.now }
    ensures { IsVerifiedUntil (proved_rest proved.now) (proved_outcome proved.now counts.now)
        (proved_net proved.now) crowd journal.now result }
{
    match proved {
        Proved::Silent { net, .. } => verify(alloc, net, crowd, journal),
        Proved::Stable { net, rest, pred } => {
            verify_settled(alloc, net, rest, pred.eval(counts), crowd, journal)
        }
    }
}

/// The output for a journal that was read.
fn compare(
    alloc: Global,
    proved: &Proved,
    counts: &[u64],
    crowd: Crowd,
    journal: &Journal,
) -> Result<Output, Stop>
    requires proved { IsProved proved.now }
    requires counts { length counts.now ≡ length (proved_net proved.now).variables }
    requires valid { AreValid (proved_net proved.now) crowd }
    requires first { journal.now.first ≡ JOURNAL_LINE }
    requires limits { IsWithinLimits journal.now.spec }
    requires rounds { AreRoundsOf journal.now.kind journal.now.spec (length crowd) journal.now.rounds }
    ensures { GivesStep (λ output. output) result
        (Ok (journal_output (proved_course proved.now counts.now)
        (crowd_of (proved_net proved.now) crowd) journal.now)) }
{
    match verified(alloc, proved, counts, crowd, journal) {
        Ok(meetings) => holds(alloc, meetings),
        Err(Failure::Fault(VerifyFault::Differs { line, kept, found })) => {
            differs(alloc, line, kept.as_slice(), found.as_slice())
        }
        Err(Failure::NoMemory) => Err(Failure::NoMemory),
    }
}

/// The output for a journal's text, for such a net from this crowd, which has these counts.
fn replay_from(
    alloc: Global,
    kind: RunKind,
    proved: &Proved,
    counts: &[u64],
    crowd: Crowd,
    text: &[u8],
) -> Result<Output, Stop>
    requires proved { IsProved proved.now }
    requires counts { length counts.now ≡ length (proved_net proved.now).variables }
    requires valid { AreValid (proved_net proved.now) crowd }
    ensures { GivesStep (λ output. output) result
        (replay_output kind (proved_course proved.now counts.now)
        (crowd_of (proved_net proved.now) crowd) (lines_of text.now)) }
{
    let journal = journal_of(alloc, kind, text, crowd.len())?;
    compare(alloc, proved, counts, crowd, &journal)
}

/// The output for a journal's text, if the proof of the bundle is valid.
fn replay_begun(
    alloc: Global,
    kind: RunKind,
    bundle: StableBundle,
    start: Start,
    text: &[u8],
) -> Result<Output, Stop>
    requires limits { IsBundleWithin bundle }
    requires start { IsStart bundle.net start }
    ensures { Obeys (OfBegun kind (lines_of text.now) (bundle, start.counts)) (λ output. output) result }
{
    let Start { counts, crowd } = start;
    let counts = counts.as_slice();
    match prove(alloc, bundle, counts) {
        Ok(proved) => replay_from(alloc, kind, &proved, counts, crowd, text),
        Err(Failure::Fault(rejected)) => Ok(rejection_output(alloc, rejected)?),
        Err(Failure::NoMemory) => Err(Failure::NoMemory),
    }
}

/// What the command that replays a journal of a run of this kind gives for an input that isn't too long.
pub fn replay_input(alloc: Global, kind: RunKind, input: &[u8]) -> Result<Output, Stop>
    ensures { Obeys (ReplayGives kind (lines_of input.now)) (λ output. output) result }
{
    let (first, second, text) = two_and_some_lines(input)?;
    let (bundle, start) = begin(alloc, (first, second))?;
    replay_begun(alloc, kind, bundle, start, text)
}
