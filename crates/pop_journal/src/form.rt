//! The numbers of a journal's lines.

ghost use Rattle.std.specs.Prelude.{◌≡◌, ◌+◌, ◌<◌, ◌≤◌, ℕ, IfOk, IfSome, MatchOption, None, List as Items, [], length};
ghost use Rattle.std.specs.Prelude.{Some, slice_index_or};
ghost use Rattle.base_lines.specs.Lines.{lines_of};
ghost use Rattle.run_picks.specs.Run.{meetings_of, turns_in};
ghost use Rattle.pop_journal.specs.ReadLines.{first_ends};
ghost use Rattle.pop_journal.specs.Form.{Tells, told_in, three_numbers, meeting_told, onward, number_named};
ghost use Rattle.pop_journal.specs.Form.{at_the_end, number_first, turns_named, spec_named, spec_in};
ghost use Rattle.pop_words.specs.WordsBehind.{words_behind};
ghost use Rattle.run_spec.specs.Kinds.{most_workers_of};
ghost use Rattle.run_spec.specs.RunLimits.{IsWithinLimits};
ghost use Rattle.std.specs.Option.{option_copied};

use crate::reading::ReadContext;
use crate::short::short_meeting;
use base_lines::{cut, next_line, printed_number, printed_within};
use pop_crowd::Meeting;
use pop_io::{SHARD_LIMIT, WORKER_LIMIT};
use run_spec::{MEETING_LIMIT, RunKind, RunSpec, SEED_LIMIT, TURN_LIMIT};
use run_text::JournalWhy;

/// The numbers of a meeting line, of any size, and whether it has a mark.
#[derive(Clone, Copy)]
pub(crate) struct MeetingLine {
    pub worker: u128,
    pub first: u128,
    pub second: u128,
    pub changed: bool,
}

/// What the first line of a text says about a meeting, not yet checked, and what follows its line feed.
/// `None` if the text has no lines.
#[inline(always)]
pub(crate) fn next_told(text: &[u8]) -> Option<(Option<MeetingLine>, &[u8])>
    ensures { MatchOption result (lines_of text.now ≡ [])
        (λ found. Tells (lines_of text.now) found.0 (lines_of found.1.now)) }
{
    if let Some((told, rest)) = short_meeting(text) {
        return Some((Some(told), rest));
    }
    let (line, rest) = next_line(text)?;
    Some((long_told(line), rest))
}

/// What a line says, with numbers of any length.
#[tactic(auto, using(crate::proofs::FormLaws::told_five), unfolding(crate::specs::Form::told_in))]
fn long_told(line: &[u8]) -> Option<MeetingLine>
    ensures { result ≡ told_in line.now }
{
    let (worker, rest) = cut(line, b' ');
    let (first, rest) = cut(rest?, b' ');
    let (second, rest) = cut(rest?, b' ');
    let Some(rest) = rest else {
        return three(worker, first, second, false);
    };
    match cut(rest, b' ') {
        (mark, None) if mark == b"*".as_slice() => three(worker, first, second, true),
        (_mark, None) => None,
        (_mark, Some(_more)) => None,
    }
}

fn three(worker: &[u8], first: &[u8], second: &[u8], changed: bool) -> Option<MeetingLine>
    ensures { result ≡ three_numbers worker.now first.now second.now changed }
{
    let worker = printed_number(worker)?;
    let first = printed_number(first)?;
    let second = printed_number(second)?;
    Some(MeetingLine {
        worker,
        first,
        second,
        changed,
    })
}

/// Whether a text begins with the line `end` and a round of this kind may stop here.
fn ends_here(kind: RunKind, text: &[u8]) -> bool
    ensures { result ≡ first_ends kind (lines_of text.now) }
{
    match (kind, next_line(text)) {
        (RunKind::Watched, Some((line, _more))) => line == b"end".as_slice(),
        _ => false,
    }
}

/// The same, given what the first line says about a meeting. A line that says something about one isn't `end`.
#[inline(always)]
pub(crate) fn stops_here(kind: RunKind, told: Option<MeetingLine>, text: &[u8]) -> bool
    ensures { (others : Items (Items ℕ)) → Tells (lines_of text.now) told others
        → result ≡ first_ends kind (lines_of text.now) }
{
    match told {
        Some(_) => false,
        None => ends_here(kind, text),
    }
}

/// The meeting on a line, by a worker that has fewer meetings of this round than its turns.
pub(crate) fn checked(
    told: Option<MeetingLine>,
    context: &ReadContext<'_>,
    made: &[u64],
    turns: u64,
) -> Result<Meeting, JournalWhy>
    requires { length made.now ≡ context.now.spec.now.workers }
    ensures worker { IfOk result
        (λ m. (m.worker < context.now.spec.now.workers) × (slice_index_or made.now m.worker 0 < turns)) }
    ensures read { (rounds : Items (Items Meeting)) (meetings : Items Meeting)
        → turns ≡ turns_in context.now.spec.now (length rounds + 1)
        → ((w : ℕ) (d : ℕ) → w < context.now.spec.now.workers
        → slice_index_or made.now w d ≡ length (meetings_of w meetings))
        → meeting_told context.now.spec.now context.now.agents rounds meetings told
        ≡ onward context.now.spec.now rounds meetings result }
{
    let Some(
        MeetingLine {
            worker,
            first,
            second,
            changed,
        },
    ) = told
    else {
        return Err(JournalWhy::Form);
    };
    let workers = context.spec.workers;
    if u128::from(workers) <= worker || turns <= made[worker as usize] {
        return Err(JournalWhy::Worker);
    }
    let below = u128::from(context.agents);
    if first == second || below <= first || below <= second {
        return Err(JournalWhy::Agents);
    }
    Ok(Meeting {
        worker: worker as u16,
        a: first as u32,
        b: second as u32,
        changed,
    })
}

/// A number after its name, and what follows the space after it.
fn number_behind<'t>(
    words: Option<&'t [u8]>,
    name: &[u8],
    least: u64,
    most: u64,
) -> Option<(u64, Option<&'t [u8]>)>
    ensures read { MatchOption result
        (number_named name.now least most (words_behind (option_copied words.entry)) ≡ None)
        (λ found. number_named name.now least most (words_behind (option_copied words.entry))
        ≡ Some (found.0, words_behind (option_copied found.1))) }
    ensures within { IfSome result (λ found. (least ≤ found.0) × (found.0 ≤ most)) }
{
    let (word, rest) = cut(words?, b' ');
    if word != name {
        return None;
    }
    first_number(rest, least, most)
}

/// A number, and what follows the space after it.
fn first_number<'t>(
    words: Option<&'t [u8]>,
    least: u64,
    most: u64,
) -> Option<(u64, Option<&'t [u8]>)>
    ensures read { MatchOption result
        (number_first least most (words_behind (option_copied words.entry)) ≡ None)
        (λ found. number_first least most (words_behind (option_copied words.entry))
        ≡ Some (found.0, words_behind (option_copied found.1))) }
    ensures within { IfSome result (λ found. (least ≤ found.0) × (found.0 ≤ most)) }
{
    let (word, rest) = cut(words?, b' ');
    let number = printed_within(word, least, most)?;
    Some((number, rest))
}

/// The numbers of the first line of a journal of this kind.
#[tactic(auto, unfolding(crate::specs::Form::spec_in))]
pub(crate) fn spec_of(kind: RunKind, line: &[u8]) -> Option<RunSpec>
    ensures spec { result ≡ spec_in kind line.now }
    ensures limits { IfSome result (λ spec. IsWithinLimits spec × (spec.workers ≤ most_workers_of kind)) }
{
    let (first, words) = cut(line, b' ');
    if first != kind.word().as_bytes() {
        return None;
    }
    spec_behind(words, kind.most_workers())
}

/// The numbers after the word of a kind with at most so many workers.
fn spec_behind(words: Option<&[u8]>, most: u16) -> Option<RunSpec>
    requires { most ≤ WORKER_LIMIT }
    ensures spec { result ≡ spec_named most (words_behind (option_copied words.entry)) }
    ensures limits { IfSome result (λ spec. IsWithinLimits spec × (spec.workers ≤ most)) }
{
    let (workers, rest) = number_behind(words, b"workers".as_slice(), 1, u64::from(most))?;
    let (shards, rest) = number_behind(rest, b"shards".as_slice(), 1, u64::from(SHARD_LIMIT))?;
    turns_behind(rest, workers as u16, shards as u32)
}

/// The turns and the seed after these workers and shards.
fn turns_behind(words: Option<&[u8]>, workers: u16, shards: u32) -> Option<RunSpec>
    requires workers { (1 ≤ workers) × (workers ≤ WORKER_LIMIT) }
    requires shards { (1 ≤ shards) × (shards ≤ SHARD_LIMIT) }
    ensures spec { result ≡ turns_named workers shards (words_behind (option_copied words.entry)) }
    ensures limits { IfSome result (λ spec. IsWithinLimits spec × (spec.workers ≡ workers)) }
{
    let (turns, rest) = number_behind(words, b"turns".as_slice(), 0, TURN_LIMIT)?;
    let (seed, rest) = number_behind(rest, b"seed".as_slice(), 0, SEED_LIMIT)?;
    let spec = RunSpec {
        workers,
        shards,
        turns,
        seed,
    };
    at_end(spec, rest)
}

/// The run, if no words are left and its meetings are few enough.
#[tactic(auto, using(crate::proofs::FormLaws::no_end_before))]
fn at_end(spec: RunSpec, rest: Option<&[u8]>) -> Option<RunSpec>
    requires { IsWithinLimits spec }
    ensures spec { result ≡ at_the_end spec (words_behind (option_copied rest.entry)) }
    ensures same { IfSome result (λ read. read ≡ spec) }
{
    match rest {
        Some(_) => None,
        None if MEETING_LIMIT < u64::from(spec.workers) * spec.turns => None,
        None => Some(spec),
    }
}
