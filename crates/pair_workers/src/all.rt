//! Runs by all workers.

ghost use Rattle.std.specs.Prelude.{◌≡◌, IfOk};
ghost use Rattle.pop_net.specs.Lanes.{crowd_of};
ghost use Rattle.run_picks.specs.OneRun.{IsOnlyRun};
ghost use Rattle.run_picks.specs.Ends.{CanMakeRun, IsRunFrom};

use crate::round::next_round;
use crate::round_start::RoundStart;
use agent_field::Layout;
use pop_crowd::Crowd;
use pop_io::{Gate, List, NoMemory};
use pop_net::Net;
use run_picks::{ROUND_TURNS, RunContext, RunEnd, end_of, first_pickers, goes_on};
use run_spec::RunSpec;
use std::alloc::Global;
use std::sync::Wait;
use std::thread::Threads;
use terminal_test::PairTable;

/// A run by all workers, round by round: one worker meets on the plain crowd, and more meet on fields.
/// Before each round the crowd is tested for being terminal.
pub fn run_all<R: Threads + Wait + Sync, G: Gate>(
    rt: &R,
    alloc: Global,
    net: &Net,
    crowd: Crowd,
    spec: &RunSpec,
    gate: &G,
) -> Result<RunEnd, NoMemory>
    requires { CanMakeRun net.now crowd spec.now }
    ensures run { IfOk result (IsRunFrom net.now crowd spec.now) }
    // No other rounds and no other end are a run by one worker.
    ensures only { spec.now.workers ≡ 1
        → IfOk result
        (λ run. IsOnlyRun net.now (crowd_of net.now crowd) spec.now run.rounds (crowd_of net.now run.crowd)) }
{
    let mut crowd = crowd;
    let mut pickers = first_pickers(alloc, spec)?;
    let mut rounds = Vec::new(alloc);
    let mut left = spec.turns;
    let mut layout = Layout::new(alloc);
    let table = PairTable::new(alloc, net)?;
    let run = RunContext {
        net,
        rest: net,
        spec,
        gate,
    };
    let mut last = None;
    'rounds: while goes_on(alloc, &table, &crowd, left, &mut last)? {
        let turns = ROUND_TURNS.min(left);
        let start = RoundStart {
            crowd,
            pickers,
            turns,
        };
        let played = next_round(rt, alloc, &run, start, &mut layout)?;
        crowd = played.crowd;
        pickers = played.pickers;
        rounds.push(List::from_vec(played.meetings))?;
        left -= turns;
    }
    let end = end_of(alloc, &table, &crowd)?;
    Ok(RunEnd {
        rounds: List::from_vec(rounds),
        crowd,
        end,
    })
}
