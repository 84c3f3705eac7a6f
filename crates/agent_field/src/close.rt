//! The end of a field: its words and its history.

ghost use Rattle.std.specs.Prelude.{◌≡◌, ℕ, ◌+◌, ◌<◌, ◌≤◌, false, List as Items, length, IfOk, IsTrue, ◌↔◌};
ghost use Rattle.std.specs.Prelude.{All, None, Some, replicate, slice_index_or, slice_set};
ghost use Rattle.std.specs.Mem.Slots.{slots_items, slots_len, IsFull};
ghost use Rattle.pop_crowd.specs.Replay.{AreMeetings};
ghost use Rattle.agent_field.specs.History.{placed, placed_some, placed_logs, made};
ghost use Rattle.agent_field.specs.Standing.{word_of};
ghost use Rattle.agent_field.specs.Layouts.{Serves, renewed};
ghost use Rattle.agent_field.specs.declared.places.TheConstants.{HEAD_WORDS};

use crate::field::{Field, FieldSeat};
use crate::layout::Layout;
use crate::limits::SEAT_LIMIT;
use crate::places::{CLOCK, place_of_agent};
use crate::view::Logged;
use atomic_table::Closed;
use pop_crowd::Meeting;
use pop_io::{List, NoMemory};
use pop_net::Word;
use std::alloc::Global;

/// The words at the end, and all meetings in the order of their tickets, each with the number of the seat that made it.
#[derive(Drop)]
pub struct Round {
    pub words: List<Word>,
    pub meetings: List<Meeting>,
}

/// Puts a log's meetings at their tickets.
fn place(out: &mut [Meeting], worker: u16, log: &[Logged])
    requires { All (λ e. e.ticket < length out.old) log.now }
    ensures { out.new ≡ placed worker out.old log.now }
{
    for e in log {
        out[e.ticket as usize] = Meeting {
            worker,
            a: e.a,
            b: e.b,
            changed: e.changed,
        };
    }
}

fn place_some(out: &mut [Meeting], worker: u16, log: &Option<List<Logged>>)
    requires { (l : Items Logged) → log.now ≡ Some l → All (λ e. e.ticket < length out.old) l }
    ensures { out.new ≡ placed_some worker out.old log.now }
{
    if let Some(log) = log {
        place(out, worker, log.as_slice());
    }
}

/// Fills a ticket until its meeting is put there.
fn nobody() -> Meeting
    ensures { result ≡ made 0 0 0 false }
{
    Meeting {
        worker: 0,
        a: 0,
        b: 0,
        changed: false,
    }
}

/// The meetings of number 0 and of those that it took in, in the order of their tickets.
fn arrange(
    alloc: Global,
    count: usize,
    own: &[Logged],
    taken: &[Option<List<Logged>>],
) -> Result<Vec<Meeting>, NoMemory>
    requires few { length taken.now ≤ SEAT_LIMIT }
    requires tickets { All (λ e. e.ticket < count) own.now
        × ((w : ℕ) (l : Items Logged) → slice_index_or taken.now w None ≡ Some l → All (λ e. e.ticket < count) l) }
    ensures { IfOk result
        (λ v. v.items ≡ placed_logs (0, placed 0 (replicate count (made 0 0 0 false)) own.now) taken.now) }
{
    let mut out = vec![in alloc; nobody(); count]?;
    place(out.as_mut_slice(), 0, own);
    for (w, log) in taken.iter().enumerate() {
        place_some(out.as_mut_slice(), w as u16, log);
    }
    Ok(out)
}

/// Brings an agent's word up to date, in a crowd and in its layout.
fn renew_word(
    closed: &Closed<(), Global>,
    shards: u32,
    a: u32,
    words: &mut [Word],
    layout: &mut Layout,
)
    requires table { IsFull closed.now.words × (slots_len closed.now.words ≡ HEAD_WORDS + shards + length words.old) }
    requires agent { a < length words.old }
    requires serves { Serves layout.old words.old shards }
    ensures word { words.new ≡ slice_set words.old a (word_of shards (slots_items closed.now.words) a) }
    ensures serves { Serves layout.new words.new shards }
{
    let place = place_of_agent(a, shards);
    let word = closed.word(place);
    words[a as usize] = Word(word);
    layout.put(place, word);
}

/// Brings the words of all agents that a meeting has changed up to date.
fn renew(
    closed: &Closed<(), Global>,
    shards: u32,
    meetings: &[Meeting],
    words: &mut [Word],
    layout: &mut Layout,
)
    requires table { IsFull closed.now.words × (slots_len closed.now.words ≡ HEAD_WORDS + shards + length words.old) }
    requires meetings { AreMeetings (length words.old) meetings.now }
    requires serves { Serves layout.old words.old shards }
    ensures words { words.new ≡ renewed shards (slots_items closed.now.words) meetings.now words.old }
    ensures serves { Serves layout.new words.new shards }
{
    for m in meetings {
        if m.changed {
            renew_word(closed, shards, m.a, words, layout);
            renew_word(closed, shards, m.b, words, layout);
        }
    }
}

impl FieldSeat {
    ghost use Rattle.agent_field.specs.Seats.{IsWhole};

    /// Whether it is number 0, and has taken in every seat that was split from it.
    pub fn whole(&self) -> bool
        ensures { IsTrue result ↔ IsWhole self.now }
    {
        if self.number != 0 {
            return false;
        }
        for w in 1..self.next as usize {
            if self.taken[w].is_none() {
                return false;
            }
        }
        true
    }
}

impl<'n> Field<'n> {
    ghost use Rattle.agent_field.specs.Seats.{IsRoundOf, IsSeatOf, IsWhole, opening_of, shards_of};

    /// The words, and the history whose replay they are.
    pub fn close(self, alloc: Global, seat: FieldSeat) -> Result<Round, NoMemory>
        requires ours { IsSeatOf self seat }
        requires whole { IsWhole seat }
        ensures { IfOk result (IsRoundOf self.entry seat) }
    {
        let mut layout = Layout::new(alloc);
        self.close_on(alloc, seat, &mut layout)
    }

    /// The same, and the layout then serves a field that goes on.
    pub fn close_on(
        self,
        alloc: Global,
        seat: FieldSeat,
        layout: &mut Layout,
    ) -> Result<Round, NoMemory>
        requires ours { IsSeatOf self seat }
        requires whole { IsWhole seat }
        requires serves { Serves layout.old (opening_of self) (shards_of self) }
        ensures round { IfOk result (IsRoundOf self.entry seat) }
        ensures serves { IfOk result (λ r. Serves layout.new r.words (shards_of self.entry)) }
    {
        let Field {
            table,
            net: _,
            shards,
            seats: _,
            agents: _,
            words,
        } = self;
        let FieldSeat {
            seat: token,
            number: _,
            log,
            spare: _,
            next: _,
            left: _,
            taken,
            looks: _,
            rooms: _,
        } = seat;
        let closed = table.close_with(token);
        let count = closed.word(CLOCK) as usize;
        let meetings = match arrange(alloc, count, log.as_slice(), taken.as_slice()) {
            Ok(meetings) => meetings,
            Err(fault) => {
                closed.free();
                return Err(fault);
            }
        };
        let mut words = words.into_vec();
        renew(
            &closed,
            shards,
            meetings.as_slice(),
            words.as_mut_slice(),
            layout,
        );
        closed.free();
        Ok(Round {
            words: List::from_vec(words),
            meetings: List::from_vec(meetings),
        })
    }
}
