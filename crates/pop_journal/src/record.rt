//! The journal of a run that was kept.

ghost use Rattle.std.specs.Prelude.{◌≡◌, ◌++◌, IfOk, OnOk};
ghost use Rattle.pop_net.specs.Lanes.{crowd_of, AreValid};
ghost use Rattle.run_text.specs.Journal.{round_lines, text_of, journal_text};

use pop_io::{List, NoMemory};
use pop_net::Net;
use run_picks::{ROUND_TURNS, RunEnd};
use run_spec::{RunKind, RunSpec};
use run_text::{Last, Page, push_end, push_rounds, push_run_line};
use std::alloc::{AllocError, Global};

/// A run as its journal tells it: its kind, its net and options, its end with all rounds, and the last line.
#[derive(Clone, Copy)]
struct RunRecord<'a> {
    kind: RunKind,
    net: &'a Net,
    spec: &'a RunSpec,
    end: &'a RunEnd,
    last: Last,
}

/// The lines of a run of this kind, each ended by a line feed: its options, its rounds, the crowd at its end,
/// and the last line.
pub fn write_journal(
    alloc: Global,
    kind: RunKind,
    net: &Net,
    spec: &RunSpec,
    end: &RunEnd,
    last: Last,
) -> Result<List<u8>, NoMemory>
    requires { AreValid net.now end.now.crowd }
    ensures { IfOk result
        (λ text. text ≡ journal_text kind net.now spec.now end.now.rounds (crowd_of net.now end.now.crowd) last) }
{
    let mut text = Vec::new(alloc);
    let told = RunRecord {
        kind,
        net,
        spec,
        end,
        last,
    };
    push_journal(alloc, &mut text, &told)?;
    Ok(List::from_vec(text))
}

/// Adds the lines of a run of this kind to a text, as `write_journal` gives them.
fn push_journal(alloc: Global, text: &mut Vec<u8>, told: &RunRecord<'_>) -> Result<(), NoMemory>
    requires { AreValid told.now.net.now told.now.end.now.crowd }
    ensures { OnOk result
        (text.new.items ≡ text.old.items
        ++ journal_text told.now.kind told.now.net.now told.now.spec.now told.now.end.now.rounds
        (crowd_of told.now.net.now told.now.end.now.crowd) told.now.last) }
{
    push_run_line(text, told.kind, told.spec)?;
    push_all_rounds(alloc, text, told.end)?;
    text.extend_from_slice(b"end\n")?;
    push_end(alloc, text, told.net, &told.end.crowd, told.last)
}

/// Adds the rounds of a run. Numerals are kept for its agents, but at most `ROUND_TURNS` a round.
fn push_all_rounds(alloc: Global, text: &mut Vec<u8>, end: &RunEnd) -> Result<(), AllocError>
    ensures { OnOk result (text.new.items ≡ text.old.items ++ text_of (round_lines 1 end.now.rounds)) }
{
    let rounds = end.rounds.as_slice();
    let meetings = (rounds.len() as u64).saturating_mul(ROUND_TURNS);
    let kept = meetings.min(u64::from(end.crowd.len())) as u32;
    let mut page = Page::new(alloc, kept)?;
    push_rounds(text, &mut page, rounds)
}
