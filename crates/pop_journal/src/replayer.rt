//! The replay of a journal, line by line.

ghost use Rattle.std.specs.Prelude.{◌≡◌, ◌≢◌, true, false, ◌∷◌, [], ◌++◌, ◌+◌, ◌<◌, ◌≤◌, ◌^◌, length, codes, All, IfOk};
ghost use Rattle.pop_leaf.specs.NetModel.{CrowdModel};
ghost use Rattle.pop_net.specs.Lanes.{crowd_of, AreValid};
ghost use Rattle.pop_crowd.specs.Replay.{AreMeetings};
ghost use Rattle.run_picks.specs.CrowdSize.{IsCrowdSize};
ghost use Rattle.base_lines.specs.Lines.{lines_of, ended};
ghost use Rattle.pop_crowd.specs.Tally.{crowd_lines};
ghost use Rattle.run_text.specs.Journal.{meeting_line, round_line, last_line};
ghost use Rattle.run_text.specs.Ending.{is_terminal, ending_until, ending_with, last_is_undecided};
ghost use Rattle.pop_journal.specs.Expected.{next_meeting, meetings_compared, tail_compared};
ghost use Rattle.pop_journal.specs.Standing.{IsReplaying, Passes};
ghost use Rattle.pop_io.specs.declared.failure.Failure.TheVariants.{Fault};
ghost use Rattle.run_text.specs.declared.fault.VerifyFault.TheVariants.{Differs};
ghost use Rattle.terminal_test.specs.TableNet.{table_net};

use crate::limits::ROUND_LIMIT;
use crate::replay_context::{EndPlace, ReplayContext};
use base_lines::{next_line, push_number};
use pop_crowd::{Crowd, Meeting};
use pop_io::{Failure, List, NoMemory, WORKER_LIMIT};
use pop_net::Net;
use run_picks::{Picker, ROUND_TURNS, meet_next};
use run_text::{Last, Outcome, VerifyFault, push_last_line, push_meeting_numbers};
use std::alloc::{AllocError, Global};
use terminal_test::{PairTable, agreed};

/// A crowd in the middle of a journal, and each worker before its next pick.
#[derive(Drop)]
pub(crate) struct Replayer {
    pub(crate) crowd: Crowd,
    pub(crate) pickers: Vec<Picker>,
    /// The pair found by the last test for a terminal crowd.
    pub(crate) last: Option<(u32, u32)>,
}

/// A meeting line.
fn meeting_text(alloc: Global, meeting: &Meeting) -> Result<List<u8>, AllocError>
    ensures { IfOk result (λ text. text ≡ meeting_line meeting.now) }
{
    let mut text = Vec::new(alloc);
    push_meeting_numbers(&mut text, meeting)?;
    text.extend_from_slice(if meeting.changed { b" *" } else { b"" })?;
    Ok(List::from_vec(text))
}

fn is_same_meeting(kept: &Meeting, found: &Meeting) -> bool
    ensures same { result ≡ true → kept.now ≡ found.now }
    ensures other { result ≡ false → found.now ≢ kept.now }
{
    *kept == *found
}

/// A meeting line that isn't the expected one.
fn differs(
    alloc: Global,
    line: u64,
    kept: &Meeting,
    found: &Meeting,
) -> Result<Failure<VerifyFault>, AllocError>
    ensures { IfOk result (λ fault. fault ≡ Fault (Differs line (meeting_line kept.now) (meeting_line found.now))) }
{
    let kept = meeting_text(alloc, kept)?;
    let found = meeting_text(alloc, found)?;
    Ok(Failure::Fault(VerifyFault::Differs { line, kept, found }))
}

impl Replayer {
    ghost use Rattle.std.specs.Prelude.{◌≡◌, ◌∷◌, [], ◌++◌, ◌+◌, ◌<◌, ◌≤◌, ◌^◌, length, List, All, IfOk, IfSome};
    ghost use Rattle.pop_leaf.specs.NetModel.{NetModel, CrowdModel};
    ghost use Rattle.pop_net.specs.Lanes.{AreValid};
    ghost use Rattle.pop_crowd.specs.Replay.{AreMeetings};
    ghost use Rattle.pop_crowd.specs.declared.crowd.Meeting.{Meeting};
    ghost use Rattle.run_spec.specs.declared.spec.RunSpec.{RunSpec};
    ghost use Rattle.run_text.specs.Ending.{ending_until};
    ghost use Rattle.run_text.specs.declared.last.Outcome.{Outcome};
    ghost use Rattle.run_picks.specs.Run.{turns_in};
    ghost use Rattle.run_text.specs.Journal.{round_line};
    ghost use Rattle.std.specs.Prelude.{codes};
    ghost use Rattle.base_lines.specs.Lines.{lines_of};
    ghost use Rattle.pop_crowd.specs.Replay.{replay};
    ghost use Rattle.pop_journal.specs.Expected.{next_meeting, meetings_compared, tail_compared, both, line_between};
    ghost use Rattle.pop_journal.specs.Expected.{line_at_end, whole_tail_until};
    ghost use Rattle.pop_journal.specs.Standing.{IsReplaying, IsForEnd, KeepsShape, Passes};
    ghost use Rattle.terminal_test.specs.TableNet.{table_net};

    /// The next meeting of a worker.
    fn replay_next(&mut self, net: &Net, worker: u16) -> Meeting
        requires valid { AreValid net.now self.old.crowd }
        requires worker { worker < length self.old.pickers.items }
        ensures next { (start : CrowdModel) (spec : RunSpec) (before : List Meeting)
            → IsReplaying net.now start spec before self.old
            → (result ≡ next_meeting net.now start spec before worker)
            × IsReplaying net.now start spec (before ++ result ∷ []) self.new }
        ensures shape { KeepsShape net.now self.old self.new }
    {
        let picker = &mut self.pickers[worker as usize];
        meet_next(net, &mut self.crowd, picker, worker)
    }

    /// Compares meeting lines with the expected ones. The first has this number.
    fn compare_meetings(
        &mut self,
        alloc: Global,
        net: &Net,
        meetings: &[Meeting],
        line: u64,
    ) -> Result<(), Failure<VerifyFault>>
        requires valid { AreValid net.now self.old.crowd }
        requires meetings { AreMeetings (length self.old.crowd) meetings.now }
        requires workers { All (λ m. m.worker < length self.old.pickers.items) meetings.now }
        requires few { IsCrowdSize (length self.old.crowd) × (length self.old.pickers.items ≤ WORKER_LIMIT) }
        requires line { line + length meetings.now < 2 ^ 64 }
        ensures passes { (start : CrowdModel) (spec : RunSpec) (before : List Meeting)
            → IsReplaying net.now start spec before self.old
            → Passes line (meetings_compared net.now start spec before meetings.now) result
            × IfOk result (λ _. IsReplaying net.now start spec (before ++ meetings.now) self.new) }
        ensures shape { KeepsShape net.now self.old self.new }
    {
        for (i, meeting) in meetings.iter().enumerate() {
            let found = self.replay_next(net, meeting.worker);
            if !is_same_meeting(meeting, &found) {
                return Err(differs(alloc, line + i as u64, meeting, &found)?);
            }
        }
        Ok(())
    }

    /// Compares the line of a round, which has this number, and its meeting lines.
    pub(crate) fn compare_round(
        &mut self,
        alloc: Global,
        context: &ReplayContext<'_>,
        round: u64,
        meetings: &[Meeting],
        line: u64,
    ) -> Result<(), Failure<VerifyFault>>
        requires valid { AreValid context.now.net.now self.old.crowd }
        requires meetings { AreMeetings (length self.old.crowd) meetings.now }
        requires workers { All (λ m. m.worker < length self.old.pickers.items) meetings.now }
        requires few { IsCrowdSize (length self.old.crowd) × (length self.old.pickers.items ≤ WORKER_LIMIT) }
        requires line { line + 1 + length meetings.now < 2 ^ 64 }
        ensures passes { (start : CrowdModel) (spec : RunSpec) (before : List Meeting)
            → IsReplaying context.now.net.now start spec before self.old → 1 ≤ turns_in spec round
            → Passes line
            (both (round_line round)
            (line_between (table_net context.now.table.now) context.now.net.now start spec before round)
            ∷ meetings_compared context.now.net.now start spec before meetings.now) result
            × IfOk result (λ _. IsReplaying context.now.net.now start spec (before ++ meetings.now) self.new) }
        ensures shape { KeepsShape context.now.net.now self.old self.new }
    {
        if is_quiet(alloc, context.table, &self.crowd, &mut self.last)? {
            return Err(round_for_end(alloc, line, round)?);
        }
        self.compare_meetings(alloc, context.net, meetings, line + 1)
    }

    /// The line expected in place of `end`, if it is another one.
    fn line_for_end(
        &mut self,
        alloc: Global,
        context: &ReplayContext<'_>,
        place: EndPlace,
        last: Last,
    ) -> Result<Option<List<u8>>, AllocError>
        requires valid { AreValid context.now.net.now self.old.crowd }
        requires round { (1 ≤ place.round) × (place.round ≤ ROUND_LIMIT + 1) }
        requires worker { IfSome place.lacking (λ worker. worker < length self.old.pickers.items) }
        ensures { IfOk result
            (λ found. (rest : NetModel) (outcome : Outcome) (start : CrowdModel) (before : List Meeting)
            → IsReplaying context.now.net.now start context.now.journal.now.spec before self.old
            → last ≡ ending_until rest outcome context.now.net.now (replay context.now.net.now before start)
            → IsForEnd (line_at_end rest context.now.net.now start context.now.journal.now.spec before place.round
            place.lacking) found) }
    {
        if !is_undecided(last) {
            return Ok(None);
        }
        if let Some(worker) = place.lacking {
            let found = self.replay_next(context.net, worker);
            return Ok(Some(meeting_text(alloc, &found)?));
        }
        if context.journal.spec.turns <= ROUND_TURNS * (place.round - 1) {
            return Ok(None);
        }
        Ok(Some(round_text(alloc, place.round)?))
    }

    /// Compares `end` at its place, and the lines after it.
    pub(crate) fn compare_end(
        &mut self,
        alloc: Global,
        context: &ReplayContext<'_>,
        place: EndPlace,
        tail: &[List<u8>],
    ) -> Result<(), Failure<VerifyFault>>
        requires valid { AreValid context.now.net.now self.old.crowd }
        requires round { (1 ≤ place.round) × (place.round ≤ ROUND_LIMIT + 1) }
        requires worker { IfSome place.lacking (λ worker. worker < length self.old.pickers.items) }
        requires line { place.line + 1 + length tail.now < 2 ^ 64 }
        ensures { (start : CrowdModel) (before : List Meeting)
            → IsReplaying context.now.net.now start context.now.journal.now.spec before self.old
            → Passes place.line
            (both (codes "end")
            (line_at_end (table_net context.now.table.now) context.now.net.now start context.now.journal.now.spec before
            place.round place.lacking)
            ∷ tail_compared tail.now
            (lines_of (whole_tail_until (table_net context.now.table.now) context.now.outcome context.now.net.now
            (replay context.now.net.now before start)))) result }
    {
        let last = ending(alloc, context, &self.crowd)?;
        let wanted = tail_text(alloc, context.net, &self.crowd, last)?;
        if let Some(found) = self.line_for_end(alloc, context, place, last)? {
            return Err(Failure::Fault(VerifyFault::Differs {
                line: place.line,
                kept: end_text(alloc)?,
                found,
            }));
        }
        compare_tail(alloc, tail, &wanted, place.line + 1)
    }
}

fn is_undecided(last: Last) -> bool
    ensures { result ≡ last_is_undecided last }
{
    match last {
        Last::Undecided(_, _) => true,
        Last::Verdict(_) | Last::Terminal | Last::Settled(_) => false,
    }
}

/// The crowd lines, and the last line.
fn tail_text(alloc: Global, net: &Net, crowd: &Crowd, last: Last) -> Result<Vec<u8>, NoMemory>
    requires { AreValid net.now crowd.now }
    ensures { IfOk result
        (λ text. text.items ≡ crowd_lines net.now (crowd_of net.now crowd.now) ++ ended (last_line last)) }
{
    let mut text = crowd.tally(alloc, net)?.into_vec();
    push_last_line(&mut text, last)?;
    Ok(text)
}

/// Whether a crowd is terminal. The pair found last is tested first.
fn is_quiet(
    alloc: Global,
    table: &PairTable,
    crowd: &Crowd,
    last: &mut Option<(u32, u32)>,
) -> Result<bool, NoMemory>
    requires { AreValid (table_net table.now) crowd.now }
    ensures { IfOk result (λ quiet.
        quiet ≡ is_terminal (table_net table.now) (crowd_of (table_net table.now) crowd.now)) }
{
    table.is_terminal(alloc, crowd, last)
}

/// The last line for a crowd.
fn ending(alloc: Global, context: &ReplayContext<'_>, crowd: &Crowd) -> Result<Last, NoMemory>
    requires { AreValid context.now.net.now crowd.now }
    ensures { IfOk result
        (λ last. last ≡ ending_until (table_net context.now.table.now) context.now.outcome context.now.net.now
        (crowd_of context.now.net.now crowd.now)) }
{
    let found = context.table.enabled_pair(alloc, crowd)?;
    let _ = crowd.len();
    Ok(last_for(context.outcome, found, agreed(context.net, crowd)))
}

fn last_for(outcome: Outcome, found: Option<(u32, u32)>, output: Option<bool>) -> Last
    ensures { result ≡ ending_with outcome found output }
{
    match (found, outcome, output) {
        (Some((a, b)), _, _) => Last::Undecided(a, b),
        (None, Outcome::Known(value), _) => Last::Settled(value),
        (None, Outcome::Agreed, Some(value)) => Last::Verdict(value),
        (None, Outcome::Agreed, None) => Last::Terminal,
    }
}

fn round_text(alloc: Global, round: u64) -> Result<List<u8>, AllocError>
    ensures { IfOk result (λ text. text ≡ round_line round) }
{
    let mut text = Vec::from_slice(alloc, b"round ")?;
    push_number(&mut text, round)?;
    Ok(List::from_vec(text))
}

fn end_text(alloc: Global) -> Result<List<u8>, AllocError>
    ensures { IfOk result (λ text. text ≡ codes "end") }
{
    Ok(List::from_vec(Vec::from_slice(alloc, b"end")?))
}

/// A round line where `end` is expected.
fn round_for_end(alloc: Global, line: u64, round: u64) -> Result<Failure<VerifyFault>, AllocError>
    ensures { IfOk result (λ fault. fault ≡ Fault (Differs line (round_line round) (codes "end"))) }
{
    let kept = round_text(alloc, round)?;
    let found = end_text(alloc)?;
    Ok(Failure::Fault(VerifyFault::Differs { line, kept, found }))
}

/// A line of the tail that isn't the expected one.
fn tail_differs(
    alloc: Global,
    line: u64,
    kept: &[u8],
    found: &[u8],
) -> Result<Failure<VerifyFault>, AllocError>
    ensures { IfOk result (λ fault. fault ≡ Fault (Differs line kept.now found.now)) }
{
    let kept = List::from_vec(Vec::from_slice(alloc, kept)?);
    let found = List::from_vec(Vec::from_slice(alloc, found)?);
    Ok(Failure::Fault(VerifyFault::Differs { line, kept, found }))
}

/// Compares the lines after `end`, the first of which has this number, with the lines of a text.
fn compare_tail(
    alloc: Global,
    tail: &[List<u8>],
    wanted: &[u8],
    line: u64,
) -> Result<(), Failure<VerifyFault>>
    requires { line + length tail.now < 2 ^ 64 }
    ensures { Passes line (tail_compared tail.now (lines_of wanted.now)) result }
{
    let mut rest = wanted;
    for (i, kept) in tail.iter().enumerate() {
        let Some((found, more)) = next_line(rest) else {
            return Err(tail_differs(alloc, line + i as u64, kept.as_slice(), &[])?);
        };
        if kept.as_slice() != found {
            return Err(tail_differs(alloc, line + i as u64, kept.as_slice(), found)?);
        }
        rest = more;
    }
    match next_line(rest) {
        None => Ok(()),
        Some((found, _more)) => Err(tail_differs(alloc, line + tail.len() as u64, &[], found)?),
    }
}
