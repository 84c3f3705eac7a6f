//! The field and its seats.

ghost use Rattle.std.specs.Prelude.{◌≡◌, ◌+◌, ◌<◌, ◌≤◌, length, [], All, Some, vec_len, vec_capacity, slice_get};
ghost use Rattle.agent_field.specs.declared.places.TheConstants.{HEAD_WORDS};
ghost use Rattle.agent_field.specs.declared.limits.TheConstants.{LOG_LIMIT, LOOK_LIMIT, SEAT_LIMIT};
ghost use Rattle.pop_net.specs.Lanes.{AreValid};
ghost use Rattle.agent_field.specs.Standing.{idle};

use crate::view::{Logged, Look, Rule, Setup, View};
use atomic_table::{Seat, Table};
use pop_io::{List, NoMemory};
use pop_net::{Net, Word};
use std::alloc::Global;

/// The words of a crowd, which threads share.
#[derive(Drop)]
pub struct Field<'n> {
    pub(crate) table: Table<(), View, Setup, Rule, Global>,
    pub(crate) net: &'n Net,
    pub(crate) shards: u32,
    pub(crate) seats: u16,
    pub(crate) agents: u32,
    /// The words with which it was opened.
    pub(crate) words: List<Word>,
    ghost net_is: { table.shared.key.net.value ≡ net.now },
    ghost shards_are: { table.shared.key.shards ≡ shards },
    ghost seats_are: { table.shared.key.seats ≡ seats },
    ghost agents_are: { length table.shared.key.opening.value ≡ agents },
    ghost words_are: { table.shared.table_id.words ≡ HEAD_WORDS + shards + agents },
    ghost no_slots: { table.shared.table_id.slots ≡ 0 },
    ghost opening_is: { table.shared.key.opening.value ≡ words },
    ghost valid: { AreValid net.now words },
    ghost limits: { (0 < shards) × (0 < seats) × (seats ≤ SEAT_LIMIT) },
}

/// A seat of the field, between its calls.
#[derive(Drop)]
pub struct FieldSeat {
    pub(crate) seat: Seat<(), View>,
    pub(crate) number: u16,
    pub(crate) log: Vec<Logged>,
    pub(crate) spare: u64,
    pub(crate) next: u16,
    pub(crate) left: u16,
    pub(crate) taken: Vec<Option<List<Logged>>>,
    pub(crate) looks: Vec<Look>,
    /// An empty list for each look to come, with room for all agents.
    pub(crate) rooms: Vec<Vec<Word>>,
    ghost room: { (vec_len log + spare ≤ vec_capacity log) × (vec_len log + spare ≤ LOG_LIMIT) },
    ghost known: { number < seat.me.0.setup.seats },
    ghost places: { number ≡ 0
        → (0 < next) × (next + left ≡ seat.me.0.setup.seats) × (vec_len taken ≡ seat.me.0.setup.seats) },
    ghost looks_fit: { (vec_len looks + vec_len rooms ≤ vec_capacity looks)
        × (vec_len looks + vec_len rooms ≤ LOOK_LIMIT) },
    ghost rooms_fit: { All
        (λ room. (room.items ≡ []) × (length seat.me.0.setup.opening.value ≤ vec_capacity room)) rooms.items },
    ghost is_idle: { seat.me ≡ (idle seat.me.0.setup number log.items next taken.items looks.items, []) },
}

/// The result of a meeting.
#[derive(Clone, Copy, PartialEq, Eq)]
pub struct Met {
    pub ticket: u64,
    pub changed: bool,
}

impl<'n> Field<'n> {
    ghost use Rattle.agent_field.specs.Seats.{opening_of};

    /// The number of agents.
    pub fn agents(&self) -> u32
        ensures { result ≡ length (opening_of self.now) }
    {
        self.agents
    }
}

impl FieldSeat {
    ghost use Rattle.agent_field.specs.Seats.{seat_number, made_of, spare_of, left_of, looks_of};
    ghost use Rattle.agent_field.specs.Calls.{HasReserved};

    /// The seat's number, from 0.
    pub fn number(&self) -> u16
        ensures { result ≡ seat_number self.now }
    {
        self.number
    }

    /// How many meetings it has made.
    pub fn made(&self) -> u64
        ensures { result ≡ made_of self.now }
    {
        self.log.len() as u64
    }

    /// How many more meetings it has room for.
    pub fn spare(&self) -> u64
        ensures { result ≡ spare_of self.now }
    {
        self.spare
    }

    /// How many seats can still be split from it.
    pub fn left(&self) -> u16
        ensures { result ≡ left_of self.now }
    {
        self.left
    }

    /// How many looks it has made.
    pub fn looks(&self) -> u16
        ensures { result ≡ length (looks_of self.now) }
    {
        self.looks.len() as u16
    }

    /// One of the looks, in the order in which they were made.
    pub fn look_at(&self, i: u16) -> &Look
        requires { i < length (looks_of self.now) }
        ensures { slice_get (looks_of self.now) i ≡ Some result.now }
    {
        &self.looks[i as usize]
    }

    /// Makes room for so many more meetings.
    pub fn reserve(&mut self, turns: u64) -> Result<(), NoMemory>
        requires { made_of self.old + turns ≤ LOG_LIMIT }
        ensures { HasReserved turns result self.old self.new }
    {
        if self.spare < turns {
            self.log.reserve(turns as usize)?;
            self.spare = turns;
        }
        Ok(())
    }
}
