//! The atomic steps of a meeting and of a look, each through the seat's token.

ghost use Rattle.pop_net.specs.Lanes.{IsValid};
ghost use Rattle.agent_field.specs.Steps.{holding, releasing, knowing, writing, seen, HasSeenAll};

use crate::field::Field;
use crate::places::{CLOCK, place_of_agent, place_of_lock};
use crate::view::{Draw, FindWritten, Lock, Read, Unlock, View, Watch, Write};
use atomic_table::Seat;
use pop_net::Word;
use std::sync::Wait;
use std::thread;

impl<'n> Field<'n> {
    ghost use Rattle.agent_field.specs.Tokens.{IsUsable, MayLock, MayUnlock, MayRead, MayDrawPair, MayWrite};
    ghost use Rattle.agent_field.specs.Tokens.{Becomes, IsDraw, IsWatch};

    /// Takes a shard's lock.
    pub(crate) fn lock<R: Wait>(&self, rt: &R, token: &mut Seat<(), View>, number: u16, s: u32)
        requires { MayLock self.now number s token.old }
        ensures { Becomes token.old token.new (holding s token.old.me.0) }
    {
        let at = place_of_lock(s, self.agents);
        for _ in rt.forever() {
            let found = self
                .table
                .shared
                .compare_exchange::<Lock>(token, at, 0, number as u64 + 1);
            if found == 0 {
                return;
            }
            thread::yield_now();
        }
        unreachable!()
    }

    /// Gives back the lock that was taken last.
    pub(crate) fn unlock(&self, token: &mut Seat<(), View>, s: u32)
        requires { MayUnlock self.now s token.old }
        ensures { Becomes token.old token.new (releasing token.old.me.0) }
    {
        let at = place_of_lock(s, self.agents);
        self.table.shared.store::<Unlock>(token, at, 0);
    }

    /// Reads an agent's word, under its shard's lock.
    pub(crate) fn read(&self, token: &mut Seat<(), View>, a: u32) -> Word
        requires { MayRead self.now a token.old }
        ensures known { Becomes token.old token.new (knowing a result token.old.me.0) }
        ensures valid { IsValid self.now.net.now result }
    {
        let at = place_of_agent(a, self.shards);
        Word(self.table.shared.load::<Read>(token, at))
    }

    /// Draws a ticket for the pair whose words were read.
    pub(crate) fn draw(&self, token: &mut Seat<(), View>) -> u64
        requires usable { IsUsable self.now token.old }
        requires pair { MayDrawPair self.now token.old }
        ensures { IsDraw result token.old token.new }
    {
        self.table.shared.fetch_add::<Draw>(token, CLOCK, 1)
    }

    /// Writes an agent's word that is due, unless it stands in its place already: then other processors may keep
    /// theirs.
    pub(crate) fn write(&self, token: &mut Seat<(), View>, a: u32, word: Word)
        requires { MayWrite self.now a word token.old }
        ensures { Becomes token.old token.new (writing a token.old.me.0) }
    {
        let at = place_of_agent(a, self.shards);
        if self.table.shared.load::<FindWritten>(token, at) != word.0 {
            self.table.shared.store::<Write>(token, at, word.0);
        }
    }

    /// Reads the clock, once all words were read under all locks.
    pub(crate) fn watch(&self, token: &mut Seat<(), View>) -> u64
        requires usable { IsUsable self.now token.old }
        requires all { HasSeenAll self.now.table.shared.key token.old.me.0 (seen token.old.me.0.known) }
        ensures { IsWatch result token.old token.new }
    {
        self.table.shared.load::<Watch>(token, CLOCK)
    }
}
