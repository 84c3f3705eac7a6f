//! Seats of a field that meet, and look.

ghost use Rattle.std.specs.Prelude.{◌≤◌, ◌↔◌, IsTrue, IfSome, length};
ghost use Rattle.pop_net.specs.Lanes.{AreValid};
ghost use Rattle.agent_field.specs.Calls.{IsOpening};
ghost use Rattle.agent_field.specs.Seats.{opening_of, IsFirstOf, IsFresh, IsSeatOf, left_of, spare_of, KeepsRest};

use agent_field::{Field, FieldSeat, Round, SEAT_LIMIT};
use pop_crowd::{AGENT_LEAST, AGENT_LIMIT, Meeting};
use pop_io::{Gate, List, OpenGate, SHARD_LIMIT};
use pop_net::{Net, Word};
use sample_nets::majority;
use std::alloc::Global;
use std::sync::Wait;
use std::sync::atomic::{AtomicU64, Ordering};
use std::thread::{Threads, join_mut};

fn are_valid(net: &Net, words: &[Word]) -> bool
    ensures { IsTrue result ↔ AreValid net.now words.now }
{
    for word in words {
        if !net.valid(*word) {
            return false;
        }
    }
    true
}

/// Whether look i of the seat has this ticket and these words.
fn shows(seat: &FieldSeat, i: u16, ticket: u64, words: &[Word]) -> bool {
    if seat.looks() <= i {
        return false;
    }
    let look = seat.look_at(i);
    look.ticket == ticket && look.words.as_slice() == words
}

/// A field whose agents have these words, and its seat with the number 0.
pub(crate) fn opened<'n, R: Wait>(
    rt: &R,
    alloc: Global,
    net: &'n Net,
    words: &[Word],
    shards: u32,
    seats: u16,
) -> Option<(Field<'n>, FieldSeat)>
    requires agents { (AGENT_LEAST ≤ length words.now) × (length words.now ≤ AGENT_LIMIT) }
    requires shards { (1 ≤ shards) × (shards ≤ SHARD_LIMIT) }
    requires seats { (1 ≤ seats) × (seats ≤ SEAT_LIMIT) }
    ensures { IfSome result (λ r. IsOpening r.0 r.1 net.now words.now shards seats) }
{
    if !are_valid(net, words) {
        return None;
    }
    let words = List::from_vec(Vec::from_slice(alloc, words).ok()?);
    Field::open(rt, alloc, net, words, shards, seats).ok()
}

fn meeting(worker: u16, a: u32, b: u32, changed: bool) -> Meeting {
    Meeting {
        worker,
        a,
        b,
        changed,
    }
}

/// Looks before a meeting and after it. Whether all that is answered and shown is right.
fn looks_around<R: Wait>(rt: &R, alloc: Global, field: &Field, seat: &mut FieldSeat) -> bool
    requires agents { 2 ≤ length (opening_of field.now) }
    requires seat { IsFirstOf field.now seat.old × IsFresh seat.old }
    ensures { IsSeatOf field.now seat.new }
{
    if seat.reserve(1).is_err() || field.reserve_looks(alloc, seat, 2).is_err() {
        return false;
    }
    let first = field.look(rt, seat);
    let met = field.meet(rt, seat, 1, 0, &OpenGate);
    let last = field.look(rt, seat);
    (first, last, met.ticket, met.changed) == (0, 1, 0, true)
        && shows(seat, 0, 0, &[Word(0), Word(1)])
        && shows(seat, 1, 1, &[Word(2), Word(3)])
}

/// Whether a round's words and meetings are those of the looks.
fn is_of_looks(round: &Round) -> bool {
    let end = [Word(2), Word(3)];
    let met = [meeting(0, 1, 0, true)];
    round.words.as_slice() == end.as_slice() && round.meetings.as_slice() == met.as_slice()
}

/// Whether looks at a field are right, and the round with which it is closed.
fn looks_hold<R: Wait>(rt: &R, alloc: Global, net: &Net) -> bool {
    let Some((field, mut seat)) = opened(rt, alloc, net, &[Word(0), Word(1)], 2, 1) else {
        return false;
    };
    if !looks_around(rt, alloc, &field, &mut seat) || !seat.whole() {
        return false;
    }
    match field.close(alloc, seat) {
        Ok(round) => is_of_looks(&round),
        Err(_) => false,
    }
}

/// The same for a field of majority.
fn majority_is_looked_at<R: Wait>(rt: &R, alloc: Global) -> bool {
    match majority(alloc) {
        Some(net) => looks_hold(rt, alloc, &net),
        None => false,
    }
}

#[test]
fn a_field_is_looked_at(rt: HostRuntime) {
    assert!(rt; majority_is_looked_at(&rt, rt.alloc()));
}

/// Two workers that wait for each other inside their first meetings, for a number of looks.
#[derive(Drop)]
struct Both {
    first: AtomicU64,
    second: AtomicU64,
    gave_up: AtomicU64,
}

impl Both {
    /// Whether both were inside their first meetings at once.
    fn met(&self) -> bool {
        let gave_up = self.gave_up.load(Ordering::SeqCst);
        let first = self.first.load(Ordering::SeqCst);
        let second = self.second.load(Ordering::SeqCst);
        (gave_up, first, second) == (0, 1, 1)
    }

    /// Comes to its own place, and waits until the other has come.
    fn wait(&self, own: &AtomicU64, other: &AtomicU64) {
        own.store(1, Ordering::SeqCst);
        for _ in 0..100_000_000u64 {
            if other.load(Ordering::SeqCst) == 1 {
                return;
            }
        }
        self.gave_up.store(1, Ordering::SeqCst);
    }
}

impl Gate for Both {
    fn pass(&self, _worker: u16, _turn: u64) {}

    fn held(&self, seat: u16, call: u64) {
        match (seat, call) {
            (0, 1) => self.wait(&self.first, &self.second),
            (1, 1) => self.wait(&self.second, &self.first),
            _ => {}
        }
    }
}

/// The pairs 0, 1 and 2, 3 meet, side by side.
fn meet_beside<R: Threads + Wait + Sync, G: Gate>(
    rt: &R,
    field: &Field,
    first: &mut FieldSeat,
    second: &mut FieldSeat,
    gate: &G,
)
    requires agents { 4 ≤ length (opening_of field.now) }
    requires first { IsSeatOf field.now first.old × (1 ≤ spare_of first.old) }
    requires second { IsSeatOf field.now second.old × (1 ≤ spare_of second.old) }
    ensures ours { IsSeatOf field.now first.new × IsSeatOf field.now second.new }
    ensures rest { KeepsRest first.old first.new × KeepsRest second.old second.new }
{
    join_mut(
        rt,
        &mut ||
            requires { (4 ≤ length (opening_of field.now)) × IsSeatOf field.now first.now × (1 ≤ spare_of first.now) }
            ensures { IsSeatOf field.entry.now first.exit.now × KeepsRest first.entry.now first.exit.now }
        {
            field.meet(rt, first, 0, 1, gate);
        },
        &mut ||
            requires { (4 ≤ length (opening_of field.now)) × IsSeatOf field.now second.now × (1 ≤ spare_of second.now) }
            ensures { IsSeatOf field.entry.now second.exit.now × KeepsRest second.entry.now second.exit.now }
        {
            field.meet(rt, second, 2, 3, gate);
        },
    );
}

/// A second seat meets beside the first one, and joins it. Whether what they say of themselves before that is right.
fn meets_beside<R: Threads + Wait + Sync, G: Gate>(
    rt: &R,
    alloc: Global,
    field: &Field,
    first: &mut FieldSeat,
    gate: &G,
) -> bool
    requires agents { 4 ≤ length (opening_of field.now) }
    requires seat { IsFirstOf field.now first.old × IsFresh first.old × (1 ≤ left_of first.old) }
    ensures { IsSeatOf field.now first.new }
{
    if first.reserve(3).is_err() {
        return false;
    }
    let Ok(mut second) = field.split(alloc, first) else {
        return false;
    };
    if second.reserve(1).is_err() {
        return false;
    }
    meet_beside(rt, field, first, &mut second, gate);
    let apart = (first.whole(), second.number(), second.made(), second.left());
    field.join(first, second).is_ok() && apart == (false, 1, 1, 0)
}

/// Whether a round's words and meetings are those of the two seats; the first two meetings come in any order.
fn is_of_both(round: &Round) -> bool {
    let end = [Word(3), Word(3), Word(2), Word(0), Word(3)];
    let met = round.meetings.as_slice();
    round.words.as_slice() == end.as_slice()
        && met.len() == 4
        && met.contains(&meeting(0, 0, 1, true))
        && met.contains(&meeting(1, 2, 3, false))
        && met[2] == meeting(0, 4, 0, true)
        && met[3] == meeting(0, 2, 4, true)
}

/// Two seats meet side by side, and then the first one in one shard and across two. Whether the round is right.
fn seats_meet<R: Threads + Wait + Sync, G: Gate>(
    rt: &R,
    alloc: Global,
    net: &Net,
    gate: &G,
) -> bool {
    let words = [Word(0), Word(1), Word(0), Word(0), Word(1)];
    let Some((field, mut first)) = opened(rt, alloc, net, &words, 4, 2) else {
        return false;
    };
    let met = meets_beside(rt, alloc, &field, &mut first, gate);
    if !met || first.spare() < 2 || field.agents() != 5 || !first.whole() {
        return false;
    }
    field.meet(rt, &mut first, 4, 0, gate);
    field.meet(rt, &mut first, 2, 4, gate);
    match field.close(alloc, first) {
        Ok(round) => is_of_both(&round),
        Err(_) => false,
    }
}

/// The same for a field of majority.
fn majority_meets<R: Threads + Wait + Sync, G: Gate>(rt: &R, alloc: Global, gate: &G) -> bool {
    match majority(alloc) {
        Some(net) => seats_meet(rt, alloc, &net, gate),
        None => false,
    }
}

#[test]
fn two_seats_meet_at_once(rt: HostRuntime) {
    let gate = Both {
        first: AtomicU64::new(0),
        second: AtomicU64::new(0),
        gave_up: AtomicU64::new(0),
    };
    let right = majority_meets(&rt, rt.alloc(), &gate);
    assert!(rt; right && gate.met());
}
