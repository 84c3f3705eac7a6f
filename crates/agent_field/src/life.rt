//! How a field begins, and how its seats are dealt and taken in.

ghost use Rattle.std.specs.Prelude.{◌≡◌, ◌≤◌, IfOk, OnOk, None, replicate};

use crate::field::{Field, FieldSeat};
use crate::layout::Layout;
use crate::places::FOUNDER;
use crate::view::{Deal, Found, Logged, Rule, Setup, View};
use atomic_table::Table;
use pop_io::{List, NoMemory};
use pop_net::{Net, Word};
use std::alloc::Global;
use std::snapshot::Snapshot;
use std::sync::Wait;

fn no_logs(alloc: Global, seats: u16) -> Result<Vec<Option<List<Logged>>>, NoMemory>
    ensures { IfOk result (λ logs. logs.items ≡ replicate seats None) }
{
    let mut logs = Vec::new(alloc);
    for _ in 0..seats {
        logs.push(None)?;
    }
    Ok(logs)
}

impl<'n> Field<'n> {
    ghost use Rattle.agent_field.specs.Seats.{IsFirstOf, IsSeatOf, left_of};
    ghost use Rattle.agent_field.specs.Calls.{CanOpen, IsOpening, HasSplit, HasJoined};
    ghost use Rattle.agent_field.specs.Layouts.{Serves};

    /// A field with these words, and its seat with the number 0.
    pub fn open<R: Wait>(
        rt: &R,
        alloc: Global,
        net: &'n Net,
        words: List<Word>,
        shards: u32,
        seats: u16,
    ) -> Result<(Field<'n>, FieldSeat), NoMemory>
        requires { CanOpen net.now words shards seats }
        ensures { IfOk result (λ r. IsOpening r.0 r.1 net.now words shards seats) }
    {
        let mut layout = Layout::new(alloc);
        Field::open_on(rt, alloc, net, words, shards, seats, &mut layout)
    }

    /// The same, with a layout that other fields may have used.
    pub fn open_on<R: Wait>(
        rt: &R,
        alloc: Global,
        net: &'n Net,
        words: List<Word>,
        shards: u32,
        seats: u16,
        layout: &mut Layout,
    ) -> Result<(Field<'n>, FieldSeat), NoMemory>
        requires can { CanOpen net.now words shards seats }
        requires serves { Serves layout.old words shards }
        ensures opened { IfOk result (λ r. IsOpening r.0 r.1 net.now words shards seats) }
        ensures serves { OnOk result (Serves layout.new words shards) }
    {
        // No other seat can have founded the field, so there is nobody to wait for.
        let _ = rt;
        let agents = words.as_slice().len() as u32;
        layout.lay(words.as_slice(), shards)?;
        let taken = no_logs(alloc, seats)?;
        let setup = Setup {
            net: Snapshot::of(net),
            opening: Snapshot::of(&words),
            shards,
            seats,
        };
        let (table, mut seat) = Table::<(), View, Setup, Rule, Global>::of_words(
            alloc,
            layout.words.as_slice(),
            &setup,
        )?;
        table.shared.swap::<Found>(&mut seat, FOUNDER, 1);
        let field = Field {
            table,
            net,
            shards,
            seats,
            agents,
            words,
        };
        let first = FieldSeat {
            seat,
            number: 0,
            log: Vec::new(alloc),
            spare: 0,
            next: 1,
            left: seats - 1,
            taken,
            looks: Vec::new(alloc),
            rooms: Vec::new(alloc),
        };
        Ok((field, first))
    }

    /// A new seat, with the least remaining number. It currently allocates nothing.
    pub fn split(&self, alloc: Global, seat: &mut FieldSeat) -> Result<FieldSeat, NoMemory>
        requires first { IsFirstOf self.now seat.old }
        requires left { 1 ≤ left_of seat.old }
        ensures { HasSplit self.now result seat.old seat.new }
    {
        let token = self.table.shared.split_seat::<Deal>(&mut seat.seat);
        let number = seat.next;
        seat.next += 1;
        seat.left -= 1;
        Ok(FieldSeat {
            seat: token,
            number,
            log: Vec::new(alloc),
            spare: 0,
            next: 0,
            left: 0,
            taken: Vec::new(alloc),
            looks: Vec::new(alloc),
            rooms: Vec::new(alloc),
        })
    }

    /// Takes in another seat's log, under its number. It currently allocates nothing.
    pub fn join(&self, seat: &mut FieldSeat, other: FieldSeat) -> Result<(), (FieldSeat, NoMemory)>
        requires first { IsFirstOf self.now seat.old }
        requires theirs { IsSeatOf self.now other }
        ensures { HasJoined self.now other result seat.old seat.new }
    {
        let FieldSeat {
            seat: token,
            number,
            log,
            spare: _,
            next: _,
            left: _,
            taken: _,
            looks: _,
            rooms: _,
        } = other;
        self.table.shared.join_seat::<Deal>(&mut seat.seat, token);
        seat.taken[number as usize] = Some(List::from_vec(log));
        Ok(())
    }
}
