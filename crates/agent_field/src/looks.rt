//! Looks at all agents at once.

ghost use Rattle.std.specs.Prelude.{◌≡◌, ◌+◌, ◌≤◌, length, [], vec_capacity, All, IfOk};
ghost use Rattle.agent_field.specs.Steps.{below, with_locks};

use crate::field::{Field, FieldSeat};
use crate::limits::LOOK_LIMIT;
use crate::view::{Look, View};
use atomic_table::Seat;
use pop_io::{List, NoMemory};
use pop_net::Word;
use std::alloc::Global;
use std::sync::Wait;

/// Room for so many looks at so many agents.
fn look_rooms(alloc: Global, looks: u16, agents: u32) -> Result<Vec<Vec<Word>>, NoMemory>
    ensures count { IfOk result (λ rooms. length rooms.items ≡ looks) }
    ensures rooms { IfOk result (λ rooms. All (λ room. (room.items ≡ []) × (agents ≤ vec_capacity room)) rooms.items) }
{
    let mut rooms = Vec::new(alloc);
    for _ in 0..looks {
        rooms.push(Vec::with_capacity(alloc, agents as usize)?)?;
    }
    Ok(rooms)
}

impl<'n> Field<'n> {
    ghost use Rattle.agent_field.specs.Tokens.{IsBetweenCalls, HasLocked, HoldsJust, HasReadAll, Becomes};
    ghost use Rattle.agent_field.specs.Seats.{IsFirstOf, looks_of, spare_looks_of};
    ghost use Rattle.agent_field.specs.Calls.{HasReservedLooks, HasLooked};

    /// Takes the locks of all shards, in ascending order.
    pub(crate) fn lock_all<R: Wait>(&self, rt: &R, token: &mut Seat<(), View>, number: u16)
        requires { IsBetweenCalls self.now number token.old }
        ensures { Becomes token.old token.new (with_locks (below self.now.shards) token.old.me.0) }
    {
        for s in 0..self.shards {
            self.lock(rt, token, number, s);
        }
    }

    /// Reads all words, under the locks of all shards, into a list with enough room.
    fn read_all(&self, token: &mut Seat<(), View>, mut out: Vec<Word>) -> Vec<Word>
        requires locked { HasLocked self.now (below self.now.shards) token.old }
        requires room { (out.items ≡ []) × (self.now.agents ≤ vec_capacity out) }
        ensures { HasReadAll self.now.agents result.items token.old token.new }
    {
        for a in 0..self.agents {
            out.push_reserved(self.read(token, a));
        }
        out
    }

    /// Gives the locks of all shards back, in descending order.
    fn unlock_all(&self, token: &mut Seat<(), View>)
        requires { HoldsJust self.now (below self.now.shards) token.old }
        ensures { Becomes token.old token.new (with_locks [] token.old.me.0) }
    {
        for s in (0..self.shards).rev() {
            self.unlock(token, s);
        }
    }

    /// Makes room for so many more looks.
    pub fn reserve_looks(
        &self,
        alloc: Global,
        seat: &mut FieldSeat,
        looks: u16,
    ) -> Result<(), NoMemory>
        requires first { IsFirstOf self.now seat.old }
        requires limit { length (looks_of seat.old) + looks ≤ LOOK_LIMIT }
        ensures { HasReservedLooks self.now looks result seat.old seat.new }
    {
        if seat.rooms.len() < looks as usize {
            let rooms = look_rooms(alloc, looks, self.agents)?;
            seat.looks.reserve(looks as usize)?;
            seat.rooms = rooms;
        }
        Ok(())
    }

    /// Looks at all agents, under the locks of all shards, and returns the ticket of the next meeting.
    /// It may wait for a lock, and allocates nothing.
    pub fn look<R: Wait>(&self, rt: &R, seat: &mut FieldSeat) -> u64
        requires first { IsFirstOf self.now seat.old }
        requires room { 1 ≤ spare_looks_of seat.old }
        ensures { HasLooked self.now result seat.old seat.new }
    {
        let Some(room) = seat.rooms.pop() else {
            unreachable!()
        };
        let token = &mut seat.seat;
        self.lock_all(rt, token, seat.number);
        let words = self.read_all(token, room);
        let ticket = self.watch(token);
        self.unlock_all(token);
        seat.looks.push_reserved(Look {
            ticket,
            words: List::from_vec(words),
        });
        ticket
    }
}
