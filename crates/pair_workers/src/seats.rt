//! How seats are dealt to the workers of a round, and taken in.

ghost use Rattle.std.specs.Prelude.{◌≡◌, ◌+◌, ◌<◌, ◌≤◌, ◌++◌, length, map, IfOk, OnOk};
ghost use Rattle.pop_net.specs.Lanes.{AreValid};
ghost use Rattle.agent_field.specs.Seats.{log_of};
ghost use Rattle.agent_field.specs.Layouts.{Serves};
ghost use Rattle.pair_workers.specs.Work.{IsFirstSeat, HasSeated, HasDealt, HasAll, HasOpened};

use crate::round_start::RoundStart;
use crate::work::Worker;
use agent_field::{Field, FieldSeat, Layout, SEAT_LIMIT};
use pop_io::{NoMemory, SHARD_LIMIT};
use pop_net::Net;
use run_picks::{Picker, ROUND_TURNS};
use std::alloc::Global;
use std::sync::Wait;

/// Seats a worker for each picker, with room for its turns.
fn seat_workers(
    alloc: Global,
    field: &Field,
    first: &mut FieldSeat,
    pickers: Vec<Picker>,
    turns: u64,
) -> Result<Vec<Worker>, NoMemory>
    requires first { IsFirstSeat field.now (length pickers.items) first.old }
    requires turns { turns ≤ ROUND_TURNS }
    ensures { IfOk result (λ workers. HasSeated field.now turns pickers.items first.old first.new workers.items) }
{
    let mut workers = Vec::new(alloc);
    'pickers: for picker in pickers {
        let mut seat = field.split(alloc, first)?;
        seat.reserve(turns)?;
        workers.push(Worker { seat, picker })?;
    }
    Ok(workers)
}

/// A field with this crowd, its number 0, and a worker for each picker on the other seats.
pub fn open_round<'n, R: Wait>(
    rt: &R,
    alloc: Global,
    net: &'n Net,
    shards: u32,
    start: RoundStart,
    layout: &mut Layout,
) -> Result<(Field<'n>, FieldSeat, Vec<Worker>), NoMemory>
    requires valid { AreValid net.now start.crowd }
    requires shards { (1 ≤ shards) × (shards ≤ SHARD_LIMIT) }
    requires few { (length start.pickers.items < SEAT_LIMIT) × (start.turns ≤ ROUND_TURNS) }
    requires serves { Serves layout.old start.crowd shards }
    ensures opened { IfOk result
        (λ r. HasOpened net.now start.crowd shards start.turns start.pickers.items r.0 r.1 r.2.items) }
    ensures serves { OnOk result (Serves layout.new start.crowd shards) }
{
    let RoundStart {
        crowd,
        pickers,
        turns,
    } = start;
    let seats = pickers.len() as u16 + 1;
    let words = crowd.into_words();
    let (field, mut seat) = Field::open_on(rt, alloc, net, words, shards, seats, layout)?;
    let workers = seat_workers(alloc, &field, &mut seat, pickers, turns)?;
    Ok((field, seat, workers))
}

/// How many meetings each worker has made.
pub fn meetings_made(alloc: Global, workers: &[Worker]) -> Result<Vec<u64>, NoMemory>
    ensures { IfOk result (λ made. made.items ≡ map (λ w. length (log_of w.seat)) workers.now) }
{
    let mut made = Vec::with_capacity(alloc, workers.len())?;
    'workers: for worker in workers {
        made.push(worker.seat.made())?;
    }
    Ok(made)
}

/// Takes in the seats of all these workers, and appends their pickers to others.
pub fn take_in(
    field: &Field,
    first: FieldSeat,
    workers: Vec<Worker>,
    pickers: Vec<Picker>,
) -> Result<(FieldSeat, Vec<Picker>), NoMemory>
    requires { HasDealt field.now first workers.items }
    ensures all { IfOk result (λ r. HasAll field.now workers.items first r.0) }
    ensures pickers { IfOk result (λ r. r.1.items ≡ pickers.items ++ map (λ w. w.picker) workers.items) }
{
    let mut first = first;
    let mut pickers = pickers;
    'workers: for worker in workers {
        let Worker { seat, picker } = worker;
        match field.join(&mut first, seat) {
            Ok(()) => {}
            Err((_, fault)) => return Err(fault),
        }
        pickers.push(picker)?;
    }
    Ok((first, pickers))
}
