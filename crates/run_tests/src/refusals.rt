//! What seats say of themselves after a call that was refused its memory.

ghost use Rattle.std.specs.Prelude.{◌≤◌, length};
ghost use Rattle.agent_field.specs.Seats.{opening_of, IsFirstOf, IsFresh, IsSeatOf, left_of};

use crate::fields::opened;
use agent_field::{Field, FieldSeat};
use pop_io::OpenGate;
use pop_net::{Net, Word};
use sample_nets::majority;
use std::alloc::Global;
use std::sync::Wait;
use std::test::Fail;

/// Its number, its meetings and the room for more, the seats left, whether it is whole, and its looks.
fn said_of(seat: &FieldSeat) -> (u16, u64, u64, u16, bool, u16) {
    (
        seat.number(),
        seat.made(),
        seat.spare(),
        seat.left(),
        seat.whole(),
        seat.looks(),
    )
}

/// Makes calls with a second seat that may each be refused memory, up to the first that is. An error says whether that
/// one left the seats as they were.
fn shared<R: Wait>(rt: &R, alloc: Global, field: &Field, first: &mut FieldSeat) -> Result<(), bool>
    requires agents { 2 ≤ length (opening_of field.now) }
    requires seat { IsFirstOf field.now first.old × IsFresh first.old × (1 ≤ left_of first.old) }
    ensures { IsSeatOf field.now first.new }
{
    let before = said_of(first);
    let Ok(mut second) = field.split(alloc, first) else {
        return Err(said_of(first) == before);
    };
    let before = said_of(&second);
    if second.reserve(1).is_err() {
        return Err(said_of(&second) == before);
    }
    field.meet(rt, &mut second, 0, 1, &OpenGate);
    let before = said_of(first);
    if field.reserve_looks(alloc, first, 2).is_err() {
        return Err(said_of(first) == before);
    }
    let before = (said_of(first), said_of(&second));
    match field.join(first, second) {
        Ok(()) => Ok(()),
        Err((second, _)) => Err((said_of(first), said_of(&second)) == before),
    }
}

/// Makes calls that may each be refused memory, up to the first that is. Whether that one left the seats as they were.
fn stay_as_they_were<R: Wait>(rt: &R, alloc: Global, net: &Net) -> bool {
    let Some((field, mut first)) = opened(rt, alloc, net, &[Word(0), Word(1)], 1, 2) else {
        return true;
    };
    if let Err(stayed) = shared(rt, alloc, &field, &mut first) {
        return stayed;
    }
    if !first.whole() {
        return false;
    }
    match field.close(alloc, first) {
        Ok(round) => round.meetings.as_slice().len() == 1,
        Err(_) => true,
    }
}

/// The same for a field of majority.
fn majority_stays<R: Wait>(rt: &R, alloc: Global) -> Option<bool> {
    let net = majority(alloc)?;
    Some(stay_as_they_were(rt, alloc, &net))
}

/// `tests/refused.py` runs it once for each allocation, which is refused in that run.
#[test]
fn a_refusal_leaves_the_seats(rt: HostRuntime) -> Result<(), Fail> {
    let stayed = majority_stays(&rt, rt.alloc()).ok_or("a net")?;
    assert!(rt; stayed);
    Ok(())
}
