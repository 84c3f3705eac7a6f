//! A round: seats are dealt, all workers make their turns, and the field is closed.

ghost use Rattle.std.specs.Prelude.{◌≡◌, All, IfOk, MatchResult};
ghost use Rattle.agent_field.specs.Layouts.{Serves};
ghost use Rattle.run_spec.specs.RunLimits.{IsWithinLimits};
ghost use Rattle.run_picks.specs.CrowdSize.{IsCrowdSize};
ghost use Rattle.pair_workers.specs.WholeRounds.{CanMakeRound, IsRoundFrom, IsWholeRound};
ghost use Rattle.pair_workers.specs.Work.{MayWork, HasWorked, HaveWorked, agents_of_field};

use crate::round_end::RoundEnd;
use crate::round_start::RoundStart;
use crate::seats::{open_round, take_in};
use crate::shift::Shift;
use crate::signals::Signals;
use crate::work::{Worker, work, work_all};
use agent_field::{Field, Layout, Round};
use pop_crowd::Crowd;
use pop_io::{Gate, List, NoMemory};
use pop_net::Net;
use run_picks::{Picker, RunContext, play_round};
use run_spec::RunSpec;
use std::alloc::Global;
use std::sync::Wait;
use std::thread::{Threads, join_mut};

/// The first worker and all others, in parallel.
fn work_beside<R: Threads + Wait + Sync, G: Gate>(
    rt: &R,
    field: &Field,
    first: &mut Worker,
    others: &mut [Worker],
    shift: &Shift<G>,
)
    requires agents { IsCrowdSize (agents_of_field field.now) }
    requires may { MayWork field.now shift.now.turns first.old × All (MayWork field.now shift.now.turns) others.old }
    ensures first { HasWorked field.now shift.now.turns shift.now.signals.now.observed first.old first.new }
    ensures others { HaveWorked field.now shift.now.turns shift.now.signals.now.observed others.old others.new }
{
    join_mut(
        rt,
        &mut ||
            requires { IsCrowdSize (agents_of_field field.now) × MayWork field.now shift.now.turns first.now }
            ensures { HasWorked field.entry.now shift.entry.now.turns shift.entry.now.signals.now.observed
                first.entry.now first.exit.now }
        { work(rt, field, first, shift) },
        &mut ||
            requires { IsCrowdSize (agents_of_field field.now) × All (MayWork field.now shift.now.turns) others.now }
            ensures { HaveWorked field.entry.now shift.entry.now.turns shift.entry.now.signals.now.observed
                others.entry.now others.exit.now }
        { work_all(rt, field, others, shift) },
    );
}

/// A round on the field, with a seat for each worker.
fn field_round<R: Threads + Wait + Sync, G: Gate>(
    rt: &R,
    alloc: Global,
    run: &RunContext<G>,
    start: RoundStart,
    layout: &mut Layout,
) -> Result<RoundEnd, NoMemory>
    requires round { CanMakeRound run.now.net.now start.crowd run.now.spec.now.workers start.turns start.pickers.items }
    requires serves { Serves layout.old start.crowd run.now.spec.now.shards }
    ensures round { IfOk result
        (IsWholeRound run.now.net.now start.crowd run.now.spec.now.workers start.turns start.pickers.items) }
    ensures serves { IfOk result (λ r. Serves layout.new r.crowd run.now.spec.now.shards) }
{
    let RoundStart {
        crowd,
        mut pickers,
        turns,
    } = start;
    let picker = pickers.remove(0);
    let others = RoundStart {
        crowd,
        pickers,
        turns,
    };
    let (field, mut seat, mut others) = open_round(
        rt,
        alloc,
        run.net,
        run.spec.shards,
        others,
        layout,
    )?;
    seat.reserve(turns)?;
    let mut first = Worker { seat, picker };
    let signals = Signals::new(false);
    let shift = Shift {
        turns,
        signals: &signals,
        gate: run.gate,
    };
    work_beside(rt, &field, &mut first, others.as_mut_slice(), &shift);
    let Worker { seat, picker } = first;
    let mut moved = Vec::new(alloc);
    moved.push(picker)?;
    let (whole, pickers) = take_in(&field, seat, others, moved)?;
    let round = field.close_on(alloc, whole, layout)?;
    Ok(RoundEnd {
        crowd: Crowd::of_words(run.net, round.words),
        pickers,
        meetings: round.meetings.into_vec(),
    })
}

/// A round of one worker, on the plain crowd.
fn plain_round<G: Gate>(
    alloc: Global,
    run: &RunContext<G>,
    start: RoundStart,
) -> Result<RoundEnd, NoMemory>
    requires { CanMakeRound run.now.net.now start.crowd 1 start.turns start.pickers.items }
    ensures { IfOk result (IsWholeRound run.now.net.now start.crowd 1 start.turns start.pickers.items) }
{
    let RoundStart {
        mut crowd,
        mut pickers,
        turns,
    } = start;
    let meetings = play_round(alloc, run, &mut crowd, &mut pickers[0], turns)?;
    Ok(RoundEnd {
        crowd,
        pickers,
        meetings,
    })
}

/// Each worker makes its next picks and meetings: one worker on the plain crowd, and more in parallel on a field.
pub fn next_round<R: Threads + Wait + Sync, G: Gate>(
    rt: &R,
    alloc: Global,
    run: &RunContext<G>,
    start: RoundStart,
    layout: &mut Layout,
) -> Result<RoundEnd, NoMemory>
    requires round { CanMakeRound run.now.net.now start.crowd run.now.spec.now.workers start.turns start.pickers.items }
    requires serves { Serves layout.old start.crowd run.now.spec.now.shards }
    ensures round { IfOk result
        (IsWholeRound run.now.net.now start.crowd run.now.spec.now.workers start.turns start.pickers.items) }
    ensures serves { IfOk result (λ r. Serves layout.new r.crowd run.now.spec.now.shards) }
{
    if run.spec.workers == 1 {
        layout.clear();
        return plain_round(alloc, run, start);
    }
    field_round(rt, alloc, run, start, layout)
}

/// Copies of the pickers, which make the same picks.
fn copies(alloc: Global, pickers: &[Picker]) -> Result<Vec<Picker>, NoMemory>
    ensures { IfOk result (λ copies. copies.items ≡ pickers.now) }
{
    let mut copies = Vec::with_capacity(alloc, pickers.len())?;
    'pickers: for picker in pickers {
        copies.push(picker.copy()?)?;
    }
    Ok(copies)
}

/// Each worker makes its next picks and meetings: one worker on the plain crowd, and more in parallel
/// on a field. The pickers move past these picks.
pub fn run_round<R: Threads + Wait + Sync, G: Gate>(
    rt: &R,
    alloc: Global,
    net: &Net,
    crowd: &Crowd,
    spec: &RunSpec,
    pickers: &mut [Picker],
    turns: u64,
    gate: &G,
) -> Result<Round, NoMemory>
    requires round { CanMakeRound net.now crowd.now spec.now.workers turns pickers.old }
    requires limits { IsWithinLimits spec.now }
    // If memory runs out, the pickers stay as they were.
    ensures { MatchResult result (IsRoundFrom net.now crowd.now spec.now.workers turns pickers.old pickers.new)
        (λ _. pickers.new ≡ pickers.old) }
{
    let start = RoundStart {
        pickers: copies(alloc, pickers)?,
        crowd: crowd.copy(alloc)?,
        turns,
    };
    let run = RunContext {
        net,
        rest: net,
        spec,
        gate,
    };
    let mut layout = Layout::new(alloc);
    let RoundEnd {
        crowd: end,
        pickers: mut moved,
        meetings,
    } = next_round(rt, alloc, &run, start, &mut layout)?;
    pickers.swap_with_slice(moved.as_mut_slice());
    Ok(Round {
        words: end.into_words(),
        meetings: List::from_vec(meetings),
    })
}
