//! The lines of a run.

ghost use Rattle.std.specs.Prelude.{◌≡◌, ◌+◌, ◌≤◌, [], ◌∷◌, ◌++◌, length, map, take, codes, decimal, IfOk, OnOk};
ghost use Rattle.std.specs.Prelude.{if◌then◌else◌};
ghost use Rattle.base_lines.specs.Places.{IsPlaced};
ghost use Rattle.pop_net.specs.Lanes.{crowd_of, AreValid};
ghost use Rattle.pop_crowd.specs.Tally.{crowd_lines};
ghost use Rattle.base_lines.specs.Lines.{ended};
ghost use Rattle.run_text.specs.Journal.{run_line, round_line, meeting_line, round_lines, last_line, text_of};

use crate::last::Last;
use crate::limits::MEETING_ROOM;
use crate::page::Page;
use base_lines::{NUMBER_ROOM, Numerals, push_field, push_number, put_byte};
use pop_crowd::{Crowd, Meeting};
use pop_io::{List, NoMemory};
use pop_net::Net;
use run_spec::{RunKind, RunSpec};
use std::alloc::{AllocError, Global};

/// The least number of two digits.
const TEN: u16 = 10;

/// Adds the lines of a run after `end`: its last crowd, and the last line.
pub fn push_end(
    alloc: Global,
    text: &mut Vec<u8>,
    net: &Net,
    crowd: &Crowd,
    last: Last,
) -> Result<(), NoMemory>
    requires { AreValid net.now crowd.now }
    ensures { OnOk result
        (text.new.items
        ≡ text.old.items ++ (crowd_lines net.now (crowd_of net.now crowd.now) ++ ended (last_line last))) }
{
    let crowd = crowd.tally(alloc, net)?;
    text.extend_from_slice(crowd.as_slice())?;
    push_last_line(text, last)?;
    Ok(())
}

/// Adds the first line of a run: its kind and its options.
pub fn push_run_line(text: &mut Vec<u8>, kind: RunKind, spec: &RunSpec) -> Result<(), AllocError>
    ensures { OnOk result (text.new.items ≡ text.old.items ++ ended (run_line kind spec.now)) }
{
    text.extend_from_slice(kind.word().as_bytes())?;
    push_field(text, " workers ", u64::from(spec.workers))?;
    push_field(text, " shards ", u64::from(spec.shards))?;
    push_field(text, " turns ", spec.turns)?;
    push_field(text, " seed ", spec.seed)?;
    text.extend_from_slice(b"\n")
}

/// Adds the rounds, counted from 1.
pub fn push_rounds(
    text: &mut Vec<u8>,
    page: &mut Page,
    rounds: &[List<Meeting>],
) -> Result<(), AllocError>
    ensures { OnOk result (text.new.items ≡ text.old.items ++ text_of (round_lines 1 rounds.now)) }
{
    for (i, meetings) in rounds.iter().enumerate() {
        push_round(text, page, i as u64 + 1, meetings.as_slice())?;
    }
    Ok(())
}

/// Adds the lines of one round, put together on a page.
pub fn push_round(
    text: &mut Vec<u8>,
    page: &mut Page,
    number: u64,
    meetings: &[Meeting],
) -> Result<(), AllocError>
    ensures { OnOk result (text.new.items
        ≡ text.old.items ++ text_of (round_line number ∷ map meeting_line meetings.now)) }
{
    push_field(text, "round ", number)?;
    text.extend_from_slice(b"\n")?;
    let bytes = page.bytes.as_mut_slice();
    push_meetings(text, &page.numerals, bytes, meetings)
}

/// Adds meeting lines. They are put together on a page, which is added whenever it is full.
fn push_meetings(
    text: &mut Vec<u8>,
    numerals: &Numerals,
    page: &mut [u8],
    meetings: &[Meeting],
) -> Result<(), AllocError>
    requires { MEETING_ROOM ≤ length page.old }
    ensures { OnOk result (text.new.items ≡ text.old.items ++ text_of (map meeting_line meetings.now)) }
{
    let mut end = 0;
    for meeting in meetings {
        let at = make_room(text, page, end)?;
        end = put_meeting(numerals, page, at, meeting);
    }
    text.extend_from_slice(&page[..end])
}

/// Adds the page up to this end, if there is no room for a line after it. Returns where the page then ends.
#[inline(always)]
fn make_room(text: &mut Vec<u8>, page: &[u8], end: usize) -> Result<usize, AllocError>
    requires page { MEETING_ROOM ≤ length page.now }
    requires end { end ≤ length page.now }
    ensures same { IfOk result (λ to. text.new.items ++ take to page.now ≡ text.old.items ++ take end page.now) }
    ensures room { IfOk result (λ to. to + MEETING_ROOM ≤ length page.now) }
{
    if MEETING_ROOM <= page.len() - end {
        return Ok(end);
    }
    text.extend_from_slice(&page[..end])?;
    Ok(0)
}

/// Puts a meeting line on a page, and returns where it ends.
#[inline(always)]
fn put_meeting(numerals: &Numerals, page: &mut [u8], at: usize, meeting: &Meeting) -> usize
    requires { at + MEETING_ROOM ≤ length page.old }
    ensures { IsPlaced page.old page.new at (ended (meeting_line meeting.now)) result }
{
    let end = put_worker(numerals, page, at, meeting.worker);
    let end = put_byte(page, end, b' ');
    let end = numerals.put(page, end, meeting.a);
    let end = put_byte(page, end, b' ');
    let end = numerals.put(page, end, meeting.b);
    put_mark(page, end, meeting.changed)
}

/// Puts the number of a worker on a page, and returns where it ends. Most have one digit.
#[inline(always)]
fn put_worker(numerals: &Numerals, page: &mut [u8], at: usize, worker: u16) -> usize
    requires { at + NUMBER_ROOM ≤ length page.old }
    ensures placed { IsPlaced page.old page.new at (decimal worker) result }
    ensures room { result ≤ at + NUMBER_ROOM }
{
    if worker < TEN {
        return put_byte(page, at, b'0' + worker as u8);
    }
    numerals.put(page, at, u32::from(worker))
}

/// Puts the end of a meeting line on a page.
#[inline(always)]
fn put_mark(page: &mut [u8], at: usize, changed: bool) -> usize
    requires { at + 3 ≤ length page.old }
    ensures { IsPlaced page.old page.new at ((if changed then codes " *" else []) ++ codes "\n") result }
{
    let mut end = at;
    if changed {
        end = put_byte(page, end, b' ');
        end = put_byte(page, end, b'*');
    }
    put_byte(page, end, b'\n')
}

/// Adds the numbers of a meeting line.
pub fn push_meeting_numbers(text: &mut Vec<u8>, meeting: &Meeting) -> Result<(), AllocError>
    ensures { OnOk result
        (text.new.items ≡ text.old.items
        ++ (decimal meeting.now.worker
        ++ (codes " " ++ decimal meeting.now.a) ++ (codes " " ++ decimal meeting.now.b))) }
{
    push_number(text, u64::from(meeting.worker))?;
    push_field(text, " ", u64::from(meeting.a))?;
    push_field(text, " ", u64::from(meeting.b))
}

/// Adds the last line of a journal, with its line feed.
pub fn push_last_line(text: &mut Vec<u8>, last: Last) -> Result<(), AllocError>
    ensures { OnOk result (text.new.items ≡ text.old.items ++ ended (last_line last)) }
{
    match last {
        Last::Verdict(true) => text.extend_from_slice(b"verdict true\n"),
        Last::Verdict(false) => text.extend_from_slice(b"verdict false\n"),
        Last::Terminal => text.extend_from_slice(b"terminal\n"),
        Last::Undecided(a, b) => {
            push_field(text, "undecided ", u64::from(a))?;
            push_field(text, " ", u64::from(b))?;
            text.extend_from_slice(b"\n")
        }
        Last::Settled(true) => text.extend_from_slice(b"settled true\n"),
        Last::Settled(false) => text.extend_from_slice(b"settled false\n"),
    }
}
