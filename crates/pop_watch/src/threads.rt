//! The loop of a run on threads, whatever becomes of its rounds.

ghost use Rattle.std.specs.Prelude.{◌≤◌, IfOk};
ghost use Rattle.agent_field.specs.Layouts.{Serves};
ghost use Rattle.pop_net.specs.Lanes.{AreValid};
ghost use Rattle.terminal_test.specs.TableNet.{table_net};
ghost use Rattle.run_spec.specs.Kinds.{most_workers_of};
ghost use Rattle.pair_workers.specs.WholeRounds.{CanMakeRound};
ghost use Rattle.pop_watch.specs.RunsOfKind.{IsRoundOf, IsTakenRunOf};

use crate::context::WatchContext;
use crate::round::watched_round;
use agent_field::Layout;
use pair_workers::{
    End, ROUND_TURNS, RoundEnd, RoundSink, RoundStart, RunContext, end_of, first_pickers, goes_on,
    next_round,
};
use pop_crowd::Crowd;
use pop_io::{Gate, NoMemory};
use run_spec::RunKind;
use std::alloc::Global;
use std::sync::Wait;
use std::thread::Threads;
use terminal_test::PairTable;

/// The next round of a run of this kind.
fn round_of<R: Threads + Wait + Sync, G: Gate>(
    rt: &R,
    alloc: Global,
    kind: RunKind,
    watch: &WatchContext<G>,
    start: RoundStart,
    layout: &mut Layout,
) -> Result<RoundEnd, NoMemory>
    requires round { CanMakeRound watch.now.run.now.net.now start.crowd watch.now.run.now.spec.now.workers
        start.turns start.pickers.items }
    requires workers { watch.now.run.now.spec.now.workers ≤ most_workers_of kind }
    requires serves { Serves layout.old start.crowd watch.now.run.now.spec.now.shards }
    ensures round { IfOk result
        (IsRoundOf kind (table_net watch.now.table.now) watch.now.run.now.net.now start.crowd
        watch.now.run.now.spec.now.workers start.turns start.pickers.items) }
    ensures serves { IfOk result (λ r. Serves layout.new r.crowd watch.now.run.now.spec.now.shards) }
{
    match kind {
        RunKind::Whole => next_round(rt, alloc, watch.run, start, layout),
        RunKind::Watched => watched_round(rt, alloc, watch, start, layout),
    }
}

/// A run of this kind on threads, whose rounds are given to a sink. Before each round the crowd is tested for being
/// terminal in `rest`. Returns the run's last crowd, and why it ended.
pub(crate) fn run_on_threads<R: Threads + Wait + Sync, G: Gate, S: RoundSink>(
    rt: &R,
    alloc: Global,
    kind: RunKind,
    run: &RunContext<G>,
    crowd: Crowd,
    sink: &mut S,
) -> Result<(Crowd, End), NoMemory>
    requires valid { AreValid run.now.net.now crowd }
    requires workers { run.now.spec.now.workers ≤ most_workers_of kind }
    ensures { IfOk result
        (λ end. IsTakenRunOf kind S.takes run.now.rest.now run.now.net.now crowd run.now.spec.now sink.old sink.new
        end.0 end.1) }
{
    let mut crowd = crowd;
    let mut pickers = first_pickers(alloc, run.spec)?;
    let mut left = run.spec.turns;
    let mut number = 1;
    let mut layout = Layout::new(alloc);
    let table = PairTable::new(alloc, run.rest)?;
    let watch = WatchContext { run, table: &table };
    let mut last = None;
    'rounds: while goes_on(alloc, &table, &crowd, left, &mut last)? {
        let turns = ROUND_TURNS.min(left);
        let start = RoundStart {
            crowd,
            pickers,
            turns,
        };
        let played = round_of(rt, alloc, kind, &watch, start, &mut layout)?;
        sink.take(number, played.meetings)?;
        crowd = played.crowd;
        pickers = played.pickers;
        number += 1;
        left -= turns;
    }
    let end = end_of(alloc, &table, &crowd)?;
    Ok((crowd, end))
}
