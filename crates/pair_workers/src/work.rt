//! One worker's turns on the field, and those of all.

ghost use Rattle.std.specs.Prelude.{All};
ghost use Rattle.run_picks.specs.CrowdSize.{IsCrowdSize};
ghost use Rattle.pair_workers.specs.Work.{MayWork, HasWorked, HaveWorked, agents_of_field};

use crate::shift::Shift;
use agent_field::{Field, FieldSeat};
use pop_io::Gate;
use run_picks::Picker;
use std::sync::Wait;
use std::thread;
use std::thread::Threads;

/// A seat of the field, and who picks its meetings.
#[derive(Drop)]
pub struct Worker {
    pub(crate) seat: FieldSeat,
    pub(crate) picker: Picker,
}

/// The worker makes its next picks and meetings, until it is told to stop.
pub(crate) fn work<R: Wait, G: Gate>(rt: &R, field: &Field, worker: &mut Worker, shift: &Shift<G>)
    requires agents { IsCrowdSize (agents_of_field field.now) }
    requires may { MayWork field.now shift.now.turns worker.old }
    ensures { HasWorked field.now shift.now.turns shift.now.signals.now.observed worker.old worker.new }
{
    let turns = shift.turns;
    let signals = shift.signals;
    let number = signals.worker_on(worker.seat.number());
    'turns: for turn in 0..turns {
        signals.reach(turn);
        shift.gate.pass(number, turn + 1);
        if signals.is_stopped() {
            return;
        }
        let (a, b) = worker.picker.pick(field.agents());
        field.meet(rt, &mut worker.seat, a, b, shift.gate);
    }
    signals.reach(turns);
}

/// All workers, in parallel.
pub fn work_all<R: Threads + Wait + Sync, G: Gate>(
    rt: &R,
    field: &Field,
    workers: &mut [Worker],
    shift: &Shift<G>,
)
    requires agents { IsCrowdSize (agents_of_field field.now) }
    requires may { All (MayWork field.now shift.now.turns) workers.old }
    ensures { HaveWorked field.now shift.now.turns shift.now.signals.now.observed workers.old workers.new }
{
    let threads = workers.len().max(1);
    thread::for_each_mut(
        rt,
        workers,
        threads,
        &|_i: usize, worker: &mut Worker|
            requires { IsCrowdSize (agents_of_field field.now) × MayWork field.now shift.now.turns worker.now }
            ensures { HasWorked field.entry.now shift.entry.now.turns shift.entry.now.signals.now.observed
                worker.entry.now worker.exit.now }
        { work(rt, field, worker, shift) },
    );
}
