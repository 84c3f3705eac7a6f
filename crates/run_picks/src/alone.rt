//! Runs by one worker, on the plain crowd.

ghost use Rattle.std.specs.Prelude.{◌≡◌, ◌≤◌, length, IfOk};
ghost use Rattle.pop_net.specs.Lanes.{AreValid};
ghost use Rattle.run_picks.specs.OneRun.{IsOnlyRunFrom};
ghost use Rattle.run_picks.specs.Played.{PlaysOn};
ghost use Rattle.run_picks.specs.Kept.{keeps_round};
ghost use Rattle.run_picks.specs.Ends.{CanMakeRun};

use crate::context::RunContext;
use crate::meet::meet_next;
use crate::picker::Picker;
use crate::run_loop::{RoundSink, run_into};
use pop_crowd::{Crowd, Meeting};
use pop_io::{Gate, List, NoMemory};
use pop_net::Net;
use run_spec::RunSpec;
use std::alloc::Global;

/// The most meetings of a worker in a round.
pub const ROUND_TURNS: u64 = 4_096;

/// Why a run ended.
#[derive(Clone, Copy, PartialEq, Eq)]
pub enum End {
    /// No meeting changes the last crowd.
    Terminal,
    /// The turns are spent, and these two agents are the least that can change.
    Open(u32, u32),
}

/// The meetings of a run round by round, its last crowd, and why it ended.
#[derive(Drop)]
pub struct RunEnd {
    pub rounds: List<List<Meeting>>,
    pub crowd: Crowd,
    pub end: End,
}

/// The rounds of a run, kept as a list.
#[derive(Drop)]
pub struct KeptRounds {
    pub rounds: Vec<List<Meeting>>,
}

impl RoundSink for KeptRounds {
    ghost takes = { keeps_round };

    fn take(&mut self, _number: u64, meetings: Vec<Meeting>) -> Result<(), NoMemory> {
        self.rounds.push(List::from_vec(meetings))?;
        Ok(())
    }
}

/// A run by the worker 0 alone, with its rounds. `shards` is ignored.
pub fn run_alone<G: Gate>(
    alloc: Global,
    net: &Net,
    crowd: Crowd,
    spec: &RunSpec,
    gate: &G,
) -> Result<RunEnd, NoMemory>
    requires alone { spec.now.workers ≡ 1 }
    requires can { CanMakeRun net.now crowd spec.now }
    // No other rounds and no other end are a run.
    ensures { IfOk result (IsOnlyRunFrom net.now crowd spec.now) }
{
    let mut kept = KeptRounds {
        rounds: Vec::new(alloc),
    };
    let run = RunContext {
        net,
        rest: net,
        spec,
        gate,
    };
    let (crowd, end) = run_into(alloc, &run, crowd, &mut kept)?;
    let KeptRounds { rounds } = kept;
    Ok(RunEnd {
        rounds: List::from_vec(rounds),
        crowd,
        end,
    })
}

/// So many meetings, one after the other.
pub fn play_round<G: Gate>(
    alloc: Global,
    run: &RunContext<G>,
    crowd: &mut Crowd,
    picker: &mut Picker,
    turns: u64,
) -> Result<Vec<Meeting>, NoMemory>
    requires valid { AreValid run.now.net.now crowd.old }
    requires few { turns ≤ ROUND_TURNS }
    ensures { IfOk result (λ log. (length log.items ≡ turns)
        × PlaysOn run.now.net.now crowd.old crowd.new picker.old picker.new log.items) }
{
    let mut log = Vec::with_capacity(alloc, turns as usize)?;
    'turns: for turn in 0..turns {
        run.gate.pass(0, turn + 1);
        log.push_reserved(meet_next(run.net, crowd, picker, 0));
    }
    Ok(log)
}
