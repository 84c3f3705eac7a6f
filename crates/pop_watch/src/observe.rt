//! The observer of a round, which looks at all agents while the workers meet.

ghost use Rattle.std.specs.Prelude.{◌≡◌, ◌+◌, ◌≤◌, length, IfOk};
ghost use Rattle.pop_net.specs.Lanes.{AreValid};
ghost use Rattle.agent_field.specs.Seats.{IsSeatOf, KeepsLogs, seat_number, opening_of, spare_looks_of, net_of};
ghost use Rattle.terminal_test.specs.TableNet.{table_net};
ghost use Rattle.run_picks.specs.CrowdSize.{IsCrowdSize};
ghost use Rattle.pop_watch.specs.Work.{CanObserve};

use crate::context::WatchContext;
use crate::limits::{LOOKS_A_ROUND, POLLS_A_LOOK};
use agent_field::{Field, FieldSeat};
use pair_workers::Shift;
use pop_crowd::Crowd;
use pop_io::{Gate, NoMemory};
use pop_net::Net;
use std::alloc::Global;
use std::sync::Wait;

/// The crowd that a look shows.
fn seen_crowd<R: Wait>(
    rt: &R,
    alloc: Global,
    net: &Net,
    field: &Field,
    seat: &mut FieldSeat,
) -> Result<Crowd, NoMemory>
    requires net { net_of field.now ≡ net.now }
    requires agents { IsCrowdSize (length (opening_of field.now)) }
    requires ours { IsSeatOf field.now seat.old }
    requires first { seat_number seat.old ≡ 0 }
    requires room { 1 ≤ spare_looks_of seat.old }
    ensures valid { IfOk result (AreValid net.now) }
    ensures ours { IsSeatOf field.now seat.new }
    ensures spare { spare_looks_of seat.new + 1 ≡ spare_looks_of seat.old }
    ensures rest { KeepsLogs seat.old seat.new }
{
    field.look(rt, seat);
    let look = seat.look_at(seat.looks() - 1);
    let words = look.words.copy(alloc)?;
    Ok(Crowd::of_words(net, words))
}

/// Looks spread over the turns, until one is terminal; the workers are then told to stop.
fn look_on<R: Wait, G: Gate>(
    rt: &R,
    alloc: Global,
    watch: &WatchContext<G>,
    field: &Field,
    seat: &mut FieldSeat,
    shift: &Shift<G>,
) -> Result<(), NoMemory>
    requires { CanObserve watch.now.run.now.net.now (table_net watch.now.table.now) field.now shift.now.turns seat.old }
    ensures { IsSeatOf field.now seat.new × KeepsLogs seat.old seat.new }
{
    let turns = shift.turns;
    let mut last = None;
    'looks: for look in 0..LOOKS_A_ROUND {
        let due = turns * u64::from(look) / u64::from(LOOKS_A_ROUND);
        if turns <= shift.signals.turn_from(due, POLLS_A_LOOK) {
            return Ok(());
        }
        shift.gate.pass(watch.run.spec.workers, u64::from(look) + 1);
        let crowd = seen_crowd(rt, alloc, watch.run.net, field, seat)?;
        if watch.table.is_terminal(alloc, &crowd, &mut last)? {
            shift.signals.stop();
            return Ok(());
        }
    }
    Ok(())
}

/// The observer's part of a round. It passes the gate once more after its last look, even if memory ran out for it.
pub(crate) fn observe<R: Wait, G: Gate>(
    rt: &R,
    alloc: Global,
    watch: &WatchContext<G>,
    field: &Field,
    seat: &mut FieldSeat,
    shift: &Shift<G>,
) -> Result<(), NoMemory>
    requires { CanObserve watch.now.run.now.net.now (table_net watch.now.table.now) field.now shift.now.turns seat.old }
    ensures { IsSeatOf field.now seat.new × KeepsLogs seat.old seat.new }
{
    let observed = look_on(rt, alloc, watch, field, seat, shift);
    shift
        .gate
        .pass(watch.run.spec.workers, u64::from(seat.looks()) + 1);
    observed
}
