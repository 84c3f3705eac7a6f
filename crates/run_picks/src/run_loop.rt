//! The loop of a run by one worker, whatever becomes of its rounds.

ghost use Rattle.std.specs.Prelude.{◌≡◌, ℕ, List, IfOk, OnOk};
ghost use Rattle.pop_net.specs.Lanes.{AreValid};
ghost use Rattle.pop_crowd.specs.declared.crowd.Meeting.{Meeting};
ghost use Rattle.run_picks.specs.TakenRun.{IsTakenRunUntil};

use crate::alone::{End, ROUND_TURNS, play_round};
use crate::context::RunContext;
use crate::ends::{end_of, goes_on};
use crate::picker::Picker;
use pop_crowd::{Crowd, Meeting};
use pop_io::{Gate, NoMemory};
use std::alloc::Global;
use terminal_test::PairTable;

/// What becomes of the rounds of a run: kept, written, counted.
pub trait RoundSink {
    // what a round with this number and these meetings makes of it
    ghost takes: { Self → ℕ → List Meeting → Self → Type 0 };

    fn take(&mut self, number: u64, meetings: Vec<Meeting>) -> Result<(), NoMemory>
        ensures { OnOk result (takes self.old number meetings.items self.new) };
}

/// A run by the worker 0 alone, whose rounds are given to a sink. Before each round the crowd is tested for being
/// terminal in `rest`, and the round's log is reserved. Returns the run's last crowd, and why it ended.
pub fn run_into<G: Gate, S: RoundSink>(
    alloc: Global,
    run: &RunContext<G>,
    crowd: Crowd,
    sink: &mut S,
) -> Result<(Crowd, End), NoMemory>
    requires alone { run.now.spec.now.workers ≡ 1 }
    requires valid { AreValid run.now.net.now crowd }
    // No other rounds and no other end are a run.
    ensures { IfOk result
        (λ end. IsTakenRunUntil S.takes run.now.rest.now run.now.net.now crowd run.now.spec.now sink.old sink.new
        end.0 end.1) }
{
    let mut crowd = crowd;
    let mut picker = Picker::new(run.spec.seed, 0);
    let mut left = run.spec.turns;
    let mut number = 1;
    let table = PairTable::new(alloc, run.rest)?;
    let mut last = None;
    'rounds: while goes_on(alloc, &table, &crowd, left, &mut last)? {
        let turns = ROUND_TURNS.min(left);
        let meetings = play_round(alloc, run, &mut crowd, &mut picker, turns)?;
        sink.take(number, meetings)?;
        number += 1;
        left -= turns;
    }
    let end = end_of(alloc, &table, &crowd)?;
    Ok((crowd, end))
}
