//! What a seat of the field knows, and the rule over words and views.

use atomic_table::{Join, Play, Split, TableRule};
use pop_io::List;
use pop_net::{Net, Word};
use std::snapshot::Snapshot;

/// A meeting, as the seat that made it logs it.
#[derive(Clone, Copy, PartialEq, Eq)]
pub struct Logged {
    pub ticket: u64,
    pub a: u32,
    pub b: u32,
    pub changed: bool,
}

/// All words, as they were before the meeting with this ticket.
#[derive(Drop)]
pub struct Look {
    pub ticket: u64,
    pub words: List<Word>,
}

/// What is fixed when a field is opened.
#[derive(Drop)]
pub struct Setup {
    pub net: Snapshot<Net>,
    pub opening: Snapshot<List<Word>>,
    pub shards: u32,
    pub seats: u16,
}

/// What a seat knows. No value of it exists at run time.
pub struct View {
    pub setup: Setup,
    /// The field is not founded, and this seat will found it.
    pub founding: bool,
    /// The seat is neither joined away nor founding.
    pub live: bool,
    pub number: u16,
    /// The shards whose locks it has, the last one taken first.
    pub held: List<u32>,
    /// The words that it read, the last one first.
    pub known: List<(u32, Word)>,
    /// The words that it still has to write.
    pub due: List<(u32, Word)>,
    pub log: List<Logged>,
    /// For number 0: the first fresh number.
    pub next: u16,
    /// For number 0: the logs that it took in, by number.
    pub taken: List<Option<List<Logged>>>,
    /// For number 0.
    pub looks: List<Look>,
}

/// The rule of the field's table: `Stands`.
pub struct Rule;

impl TableRule<(), View, Setup> for Rule {
    ghost use Rattle.agent_field.specs.Standing.{FieldStands, founder};

    ghost holds = { FieldStands };

    ghost first = { founder };
}

/// The founder word is swapped to 1.
pub struct Found;

impl Play<(), View> for Found {
    ghost use Rattle.agent_field.specs.Steps.{Founds};

    ghost then = { Founds };
}

/// A lock is tried.
pub struct Lock;

impl Play<(), View> for Lock {
    ghost use Rattle.agent_field.specs.Steps.{Locks};

    ghost then = { Locks };
}

/// A lock is given back.
pub struct Unlock;

impl Play<(), View> for Unlock {
    ghost use Rattle.agent_field.specs.Steps.{Unlocks};

    ghost then = { Unlocks };
}

/// An agent's word is read.
pub struct Read;

impl Play<(), View> for Read {
    ghost use Rattle.agent_field.specs.Steps.{Reads};

    ghost then = { Reads };
}

/// A ticket is drawn.
pub struct Draw;

impl Play<(), View> for Draw {
    ghost use Rattle.agent_field.specs.Steps.{Draws};

    ghost then = { Draws };
}

/// An agent's word is written.
pub struct Write;

impl Play<(), View> for Write {
    ghost use Rattle.agent_field.specs.Steps.{Writes};

    ghost then = { Writes };
}

/// An agent's word that is due is looked for in its place.
pub struct FindWritten;

impl Play<(), View> for FindWritten {
    ghost use Rattle.agent_field.specs.Steps.{FindsWritten};

    ghost then = { FindsWritten };
}

/// The clock is read under all locks.
pub struct Watch;

impl Play<(), View> for Watch {
    ghost use Rattle.agent_field.specs.Steps.{Watches};

    ghost then = { Watches };
}

/// Numbers are dealt, and logs taken in.
pub struct Deal;

impl Split<View> for Deal {
    ghost use Rattle.agent_field.specs.Steps.{kept_back, newcomer};

    ghost left = { kept_back };

    ghost right = { newcomer };
}

impl Join<View> for Deal {
    ghost use Rattle.agent_field.specs.Steps.{taking_in};
    ghost use Rattle.agent_field.specs.Standing.{joined_away};

    ghost both = { taking_in };

    ghost spent = { joined_away };
}
