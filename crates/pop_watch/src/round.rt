//! A watched round: the workers meet on a field, while an observer looks at it.

ghost use Rattle.std.specs.Prelude.{◌≡◌, true, ℕ, ◌<◌, ◌≤◌, length, map, All, IfOk, IsTrue, ◌↔◌, slice_index_or};
ghost use Rattle.agent_field.specs.Layouts.{Serves};
ghost use Rattle.agent_field.specs.Seats.{IsSeatOf, KeepsLogs};
ghost use Rattle.terminal_test.specs.TableNet.{table_net};
ghost use Rattle.run_picks.specs.CrowdSize.{IsCrowdSize};
ghost use Rattle.pair_workers.specs.WholeRounds.{CanMakeRound};
ghost use Rattle.pair_workers.specs.Work.{agents_of_field, MayWork, HaveWorked};
ghost use Rattle.run_picks.specs.Run.{made_by};
ghost use Rattle.pop_watch.specs.Work.{CanObserve};
ghost use Rattle.pop_watch.specs.Playing.{IsPartOfRound, IsWatchedRoundFrom, of_worker};

use crate::context::WatchContext;
use crate::limits::LOOKS_A_ROUND;
use crate::missing::make_missing;
use crate::observe::observe;
use agent_field::{Field, FieldSeat, Layout};
use pair_workers::{
    RoundEnd, RoundStart, Shift, Signals, Worker, meetings_made, open_round, take_in, work_all,
};
use pop_crowd::{Crowd, Meeting};
use pop_io::{Gate, NoMemory};
use run_spec::WATCHED_WORKERS;
use std::alloc::Global;
use std::sync::Wait;
use std::thread::{Threads, join_mut};

/// Turns the meetings of seats into those of their workers. The observer's seat 0 has none.
fn turn_to_workers(meetings: &mut [Meeting])
    requires { All (λ m. 1 ≤ m.worker) meetings.old }
    ensures { meetings.new ≡ map of_worker meetings.old }
{
    'meetings: for meeting in meetings.iter_mut() {
        meeting.worker -= 1;
    }
}

/// The observer and all workers, in parallel.
fn watch_beside<R: Threads + Wait + Sync, G: Gate>(
    rt: &R,
    alloc: Global,
    watch: &WatchContext<G>,
    field: &Field,
    seat: &mut FieldSeat,
    workers: &mut [Worker],
    shift: &Shift<G>,
) -> Result<(), NoMemory>
    requires observed { shift.now.signals.now.observed ≡ true }
    requires observer { CanObserve watch.now.run.now.net.now (table_net watch.now.table.now) field.now
        shift.now.turns seat.old }
    requires workers { All (MayWork field.now shift.now.turns) workers.old }
    ensures seat { IsSeatOf field.now seat.new × KeepsLogs seat.old seat.new }
    ensures workers { HaveWorked field.now shift.now.turns true workers.old workers.new }
{
    let (observed, ()) = join_mut(
        rt,
        &mut || -> Result<(), NoMemory>
            requires { CanObserve watch.now.run.now.net.now (table_net watch.now.table.now) field.now
                shift.now.turns seat.now }
            ensures { IsSeatOf field.entry.now seat.exit.now × KeepsLogs seat.entry.now seat.exit.now }
        { observe(rt, alloc, watch, field, seat, shift) },
        &mut ||
            requires { IsCrowdSize (agents_of_field field.now) × All (MayWork field.now shift.now.turns) workers.now
                × (shift.now.signals.now.observed ≡ true) }
            ensures { HaveWorked field.entry.now shift.entry.now.turns true workers.entry.now workers.exit.now }
        { work_all(rt, field, workers, shift) },
    );
    observed
}

/// The observer's round on the field, as far as the workers get, and how many meetings each of them has made.
fn field_round<R: Threads + Wait + Sync, G: Gate>(
    rt: &R,
    alloc: Global,
    watch: &WatchContext<G>,
    start: RoundStart,
    layout: &mut Layout,
) -> Result<(RoundEnd, Vec<u64>), NoMemory>
    requires round { CanMakeRound watch.now.run.now.net.now start.crowd watch.now.run.now.spec.now.workers
        start.turns start.pickers.items }
    requires workers { watch.now.run.now.spec.now.workers ≤ WATCHED_WORKERS }
    requires serves { Serves layout.old start.crowd watch.now.run.now.spec.now.shards }
    ensures part { IfOk result (λ r.
        IsPartOfRound watch.now.run.now.net.now start.crowd watch.now.run.now.spec.now.workers start.turns
        start.pickers.items r.0) }
    ensures serves { IfOk result (λ r. Serves layout.new r.0.crowd watch.now.run.now.spec.now.shards) }
    ensures made { IfOk result
        (λ r. (length r.1.items ≡ watch.now.run.now.spec.now.workers)
        × ((w d : ℕ) → w < watch.now.run.now.spec.now.workers
        → slice_index_or r.1.items w d ≡ made_by w r.0.meetings.items)) }
{
    let turns = start.turns;
    let (field, mut seat, mut workers) = open_round(
        rt,
        alloc,
        watch.run.net,
        watch.run.spec.shards,
        start,
        layout,
    )?;
    field.reserve_looks(alloc, &mut seat, LOOKS_A_ROUND)?;
    let signals = Signals::new(true);
    let shift = Shift {
        turns,
        signals: &signals,
        gate: watch.run.gate,
    };
    let seats = workers.as_mut_slice();
    watch_beside(rt, alloc, watch, &field, &mut seat, seats, &shift)?;
    let made = meetings_made(alloc, workers.as_slice())?;
    let (whole, pickers) = take_in(&field, seat, workers, Vec::new(alloc))?;
    let round = field.close_on(alloc, whole, layout)?;
    let mut meetings = round.meetings.into_vec();
    turn_to_workers(meetings.as_mut_slice());
    let crowd = Crowd::of_words(watch.run.net, round.words);
    let played = RoundEnd {
        crowd,
        pickers,
        meetings,
    };
    Ok((played, made))
}

/// Whether each worker has made its turns.
fn are_made(made: &[u64], turns: u64) -> bool
    ensures { IsTrue result ↔ All (λ n. n ≡ turns) made.now }
{
    made.iter().all(|n| *n == turns)
}

/// A round that is whole, or leads to a crowd that is terminal by the table.
pub(crate) fn watched_round<R: Threads + Wait + Sync, G: Gate>(
    rt: &R,
    alloc: Global,
    watch: &WatchContext<G>,
    start: RoundStart,
    layout: &mut Layout,
) -> Result<RoundEnd, NoMemory>
    requires round { CanMakeRound watch.now.run.now.net.now start.crowd watch.now.run.now.spec.now.workers
        start.turns start.pickers.items }
    requires workers { watch.now.run.now.spec.now.workers ≤ WATCHED_WORKERS }
    requires serves { Serves layout.old start.crowd watch.now.run.now.spec.now.shards }
    ensures round { IfOk result
        (IsWatchedRoundFrom (table_net watch.now.table.now) watch.now.run.now.net.now start.crowd
        watch.now.run.now.spec.now.workers start.turns start.pickers.items) }
    ensures serves { IfOk result (λ r. Serves layout.new r.crowd watch.now.run.now.spec.now.shards) }
{
    let turns = start.turns;
    let (mut played, made) = field_round(rt, alloc, watch, start, layout)?;
    if are_made(made.as_slice(), turns) {
        return Ok(played);
    }
    if watch.table.is_terminal(alloc, &played.crowd, &mut None)? {
        return Ok(played);
    }
    layout.clear();
    make_missing(watch.run.net, &mut played, made.as_slice(), turns)?;
    Ok(played)
}
