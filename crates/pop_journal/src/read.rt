//! Journals read from their lines.

ghost use Rattle.std.specs.Prelude.{◌≡◌, ◌+◌, ◌*◌, ◌<◌, ◌≤◌, List as Items, [], length, Some};
ghost use Rattle.std.specs.Prelude.{None, Ok, Err, IfOk};
ghost use Rattle.std.specs.Str.{bytes_eq};
ghost use Rattle.pop_journal.specs.Calls.{IsReadFrom};
ghost use Rattle.run_text.specs.Journal.{round_line};
ghost use Rattle.base_lines.specs.Lines.{lines_of};
ghost use Rattle.run_spec.specs.Kinds.{most_workers_of};
ghost use Rattle.run_spec.specs.RunLimits.{IsWithinLimits};
ghost use Rattle.run_picks.specs.Run.{turns_in};
ghost use Rattle.run_text.specs.declared.fault.JournalFault.TheVariants.{Out};
ghost use Rattle.pop_io.specs.declared.failure.Failure.TheVariants.{Fault};
ghost use Rattle.pop_journal.specs.ReadLines.{ReadsRound, ReadsRounds, ReadsJournal};

use crate::form::{checked, next_told, spec_of, stops_here};
use crate::journal::{Journal, LINE_LIMIT};
use crate::limits::FIRST_MEETING_LIMIT;
use crate::reading::{ReadContext, TextPlace};
use base_lines::next_line;
use itoa::Buffer;
use pop_crowd::Meeting;
use pop_io::{Failure, List, WORKER_LIMIT};
use run_picks::ROUND_TURNS;
use run_spec::RunKind;
use run_text::{JournalFault, JournalWhy};
use std::alloc::{AllocError, Global};

/// How the lines of a round end.
#[derive(Clone, Copy)]
pub(crate) enum LinesEnd {
    /// The round has all its meetings.
    Full,
    /// `end` is in place of a meeting.
    Stopped,
}

/// Reads the meeting lines of a round from its first on. Returns how the round ends, and the bytes after it.
fn read_round<'t>(
    alloc: Global,
    context: &ReadContext<'_>,
    turns: u64,
    start: &TextPlace<'t>,
    meetings: &mut Vec<Meeting>,
) -> Result<(LinesEnd, &'t [u8]), Failure<JournalFault>>
    requires turns { (1 ≤ turns) × (turns ≤ ROUND_TURNS) }
    requires none { meetings.old.items ≡ [] }
    requires number { start.now.number ≤ FIRST_MEETING_LIMIT }
    ensures long { IfOk result (λ _. length meetings.new.items ≤ WORKER_LIMIT * turns) }
    ensures read { (rounds : Items (Items Meeting)) → turns ≡ turns_in context.now.spec.now (length rounds + 1)
        → ReadsRound context.now.kind context.now.spec.now context.now.agents start.now.number rounds
        (lines_of start.now.text.now) meetings.new.items result }
{
    let workers = usize::from(context.spec.workers);
    let wanted = workers * turns as usize;
    let mut made = vec![in alloc; 0u64; workers]?;
    let mut rest = start.text;
    'lines: while meetings.len() < wanted {
        let line = start.number + meetings.len() as u64;
        let Some((told, more)) = next_told(rest) else {
            return Err(fault_at(line, JournalWhy::Missing));
        };
        if stops_here(context.kind, told, rest) {
            return Ok((LinesEnd::Stopped, more));
        }
        let meeting = match checked(told, context, &made, turns) {
            Ok(meeting) => meeting,
            Err(why) => return Err(fault_at(line, why)),
        };
        made[meeting.worker as usize] += 1;
        meetings.push(meeting)?;
        rest = more;
    }
    Ok((LinesEnd::Full, rest))
}

/// Reads the rounds of a journal up to `end`, and returns the bytes after it.
fn read_rounds<'t>(
    alloc: Global,
    context: &ReadContext<'_>,
    start: &TextPlace<'t>,
    rounds: &mut Vec<List<Meeting>>,
) -> Result<&'t [u8], Failure<JournalFault>>
    requires none { rounds.old.items ≡ [] }
    requires number { start.now.number ≤ LINE_LIMIT + 1 }
    ensures { ReadsRounds context.now.kind context.now.spec.now context.now.agents start.now.number
        (lines_of start.now.text.now) rounds.new.items result }
{
    let mut rest = start.text;
    let mut line = start.number;
    let mut left = context.spec.turns;
    'rounds: while let Some((first, more)) = next_line(rest) {
        if first == b"end".as_slice() {
            return Ok(more);
        }
        let round = rounds.len() as u64 + 1;
        if !is_round_line(first, round) {
            return Err(fault_at(line, JournalWhy::Form));
        }
        if left == 0 {
            return Err(fault_at(line, JournalWhy::Round));
        }
        let turns = ROUND_TURNS.min(left);
        let mut meetings = Vec::new(alloc);
        let place = TextPlace {
            text: more,
            number: line + 1,
        };
        let (end, behind) = read_round(alloc, context, turns, &place, &mut meetings)?;
        line += 1 + meetings.len() as u64;
        left -= turns;
        rounds.push(List::from_vec(meetings))?;
        match end {
            LinesEnd::Full => rest = behind,
            LinesEnd::Stopped => return Ok(behind),
        }
    }
    Err(fault_at(line, JournalWhy::Missing))
}

/// What is wrong with the line of this number.
fn fault_at(line: u64, why: JournalWhy) -> Failure<JournalFault>
    ensures { result ≡ Fault (Out line why) }
{
    Failure::Fault(JournalFault::Out { line, why })
}

/// Whether a line is that of the round with this number.
fn is_round_line(line: &[u8], round: u64) -> bool
    ensures { result ≡ bytes_eq line.now (round_line round) }
{
    match line.strip_prefix(b"round ".as_slice()) {
        Some(text) => {
            let mut digits = Buffer::new();
            text == digits.format(round).as_bytes()
        }
        None => false,
    }
}

/// The lines of a text.
fn take_lines(alloc: Global, text: &[u8]) -> Result<Vec<List<u8>>, AllocError>
    ensures { IfOk result (λ lines. lines.items ≡ lines_of text.now) }
{
    let mut lines = Vec::new(alloc);
    let mut rest = text;
    'lines: while let Some((line, more)) = next_line(rest) {
        lines.push(List::from_vec(Vec::from_slice(alloc, line)?))?;
        rest = more;
    }
    Ok(lines)
}

/// Reads the lines of a journal of this kind.
fn read_lines(
    alloc: Global,
    kind: RunKind,
    text: &[u8],
    first: u64,
    agents: u32,
) -> Result<Journal, Failure<JournalFault>>
    requires first { first ≤ LINE_LIMIT }
    ensures read { ReadsJournal kind agents first (lines_of text.now) result }
    ensures kind { IfOk result (λ journal. journal.kind ≡ kind) }
    ensures first { IfOk result (λ journal. journal.first ≡ first) }
    ensures limits { IfOk result (λ journal.
        IsWithinLimits journal.spec × (journal.spec.workers ≤ most_workers_of kind)) }
{
    let Some((line, rest)) = next_line(text) else {
        return Err(fault_at(first, JournalWhy::Missing));
    };
    let Some(spec) = spec_of(kind, line) else {
        return Err(fault_at(first, JournalWhy::Form));
    };
    let mut rounds = Vec::new(alloc);
    let context = ReadContext {
        kind,
        spec: &spec,
        agents,
    };
    let place = TextPlace {
        text: rest,
        number: first + 1,
    };
    let behind = read_rounds(alloc, &context, &place, &mut rounds)?;
    let tail = take_lines(alloc, behind)?;
    Ok(Journal {
        kind,
        spec,
        rounds: List::from_vec(rounds),
        tail: List::from_vec(tail),
        first,
    })
}

/// Reads a journal of a run of this kind for so many agents. Its first line has this number.
pub fn read_journal(
    alloc: Global,
    kind: RunKind,
    text: &[u8],
    first: u64,
    agents: u32,
) -> Result<Journal, Failure<JournalFault>>
    requires { first ≤ LINE_LIMIT }
    ensures { IsReadFrom (lines_of text.now) kind first agents result }
{
    read_lines(alloc, kind, text, first, agents)
}
