//! A meeting: two agents react under the locks of their shards.

ghost use Rattle.std.specs.Prelude.{◌≡◌, ◌≢◌, ◌<◌, ◌≤◌, ◌==◌, length, []};
ghost use Rattle.pop_net.specs.Lanes.{tuple_of, IsValid};
ghost use Rattle.pop_crowd.specs.Replay.{reacts};
ghost use Rattle.agent_field.specs.Standing.{locks_of, pair_locks};
ghost use Rattle.agent_field.specs.Steps.{with_locks, IsReaction};

use crate::field::{Field, FieldSeat, Met};
use crate::limits::LOG_LIMIT;
use crate::view::{Logged, View};
use atomic_table::Seat;
use pop_crowd::differ;
use pop_io::Gate;
use pop_net::{Net, Word};
use std::sync::Wait;

/// What two words become, and whether that changes one.
fn reacted(net: &Net, x: Word, y: Word) -> (Word, Word, bool)
    requires { IsValid net.now x × IsValid net.now y }
    ensures reacted { IsReaction net.now x y result.0 result.1 }
    ensures changed { result.2 ≡ reacts net.now (tuple_of net.now x) (tuple_of net.now y) }
{
    let (first, second) = net.react(x, y);
    (first, second, differ((x, y), (first, second)))
}

impl<'n> Field<'n> {
    ghost use Rattle.agent_field.specs.Tokens.{IsBetweenCalls, HasLocked, HoldsJust, HasReacted, Becomes};
    ghost use Rattle.agent_field.specs.Seats.{IsPairOf, IsSeatOf, spare_of};
    ghost use Rattle.agent_field.specs.Calls.{HasMetOnField};

    /// Takes the locks of a pair's shards, the lower one first.
    fn lock_pair<R: Wait>(
        &self,
        rt: &R,
        token: &mut Seat<(), View>,
        number: u16,
        low: u32,
        high: u32,
    )
        requires idle { IsBetweenCalls self.now number token.old }
        requires shards { (low ≤ high) × (high < self.now.shards) }
        ensures { Becomes token.old token.new (with_locks (pair_locks low high (low == high)) token.old.me.0) }
    {
        if low == high {
            self.lock(rt, token, number, low);
            return;
        }
        self.lock(rt, token, number, low);
        self.lock(rt, token, number, high);
    }

    /// Gives the locks back, the higher one first.
    fn unlock_pair(&self, token: &mut Seat<(), View>, low: u32, high: u32)
        requires shards { (low ≤ high) × (high < self.now.shards) }
        requires locked { HoldsJust self.now (pair_locks low high (low == high)) token.old }
        ensures { Becomes token.old token.new (with_locks [] token.old.me.0) }
    {
        if low == high {
            self.unlock(token, low);
            return;
        }
        self.unlock(token, high);
        self.unlock(token, low);
    }

    /// Under the locks of both agents: reads both words, draws a ticket, and writes those that change.
    fn react_pair(&self, token: &mut Seat<(), View>, a: u32, b: u32) -> (u64, bool)
        requires locked { HasLocked self.now (locks_of self.now.table.shared.key a b) token.old }
        requires agents { (a < self.now.agents) × (b < self.now.agents) × (a ≢ b) }
        requires room { length token.old.me.0.log < LOG_LIMIT }
        ensures { HasReacted self.now a b result.0 result.1 token.old token.new }
    {
        let x = self.read(token, a);
        let y = self.read(token, b);
        let (first, second, changed) = reacted(self.net, x, y);
        let ticket = self.draw(token);
        self.write(token, a, first);
        self.write(token, b, second);
        (ticket, changed)
    }

    /// The agents a and b meet. It may wait for a lock, and allocates nothing.
    pub fn meet<R: Wait, G: Gate>(
        &self,
        rt: &R,
        seat: &mut FieldSeat,
        a: u32,
        b: u32,
        gate: &G,
    ) -> Met
        requires ours { IsSeatOf self.now seat.old }
        requires pair { IsPairOf self.now a b }
        requires room { 1 ≤ spare_of seat.old }
        ensures { HasMetOnField self.now a b result seat.old seat.new }
    {
        let shards = self.shards;
        let low = (a % shards).min(b % shards);
        let high = (a % shards).max(b % shards);
        let call = seat.log.len() as u64 + 1;
        let token = &mut seat.seat;
        self.lock_pair(rt, token, seat.number, low, high);
        gate.held(seat.number, call);
        let (ticket, changed) = self.react_pair(token, a, b);
        self.unlock_pair(token, low, high);
        seat.log.push_reserved(Logged {
            ticket,
            a,
            b,
            changed,
        });
        seat.spare -= 1;
        Met { ticket, changed }
    }
}
