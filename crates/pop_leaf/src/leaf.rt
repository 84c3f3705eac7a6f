//! A population protocol: states, moves, start states, outputs and helpers (Angluin et al. 2006).

ghost use Rattle.std.specs.Prelude.{◌≡◌, ◌<◌, [], length, Some, IfOk, IfSome, slice_get};
ghost use Rattle.pop_leaf.specs.LeafFaults.{is_move_below};

use crate::copies::copy_texts;
use crate::fault::LeafFault;
use crate::limits::NARROW_STATE_LIMIT;
use crate::moves::reaction_table;
use crate::rules::leaf_fault;
use pop_io::{Failure, List, NoMemory, Text};
use std::alloc::Global;
use std::marker::Model;

/// The move `p,q -> r,s`.
#[derive(Clone, Copy, PartialEq, Eq)]
pub struct Move {
    pub p: u16,
    pub q: u16,
    pub r: u16,
    pub s: u16,
}

impl Move {
    ghost use Rattle.pop_leaf.specs.LeafModel.{silent_move};
    ghost use Rattle.pop_leaf.specs.Reaction.{takes_states};

    /// Whether it leaves the pair of its states unchanged, up to order.
    pub fn is_silent(&self) -> bool
        ensures { result ≡ silent_move self.now }
    {
        (self.p == self.r && self.q == self.s) || (self.p == self.s && self.q == self.r)
    }

    /// Whether it is non-silent and takes two states, in one order or the other.
    pub fn takes(&self, x: u16, y: u16) -> bool
        ensures { result ≡ takes_states x y self.now }
    {
        ((x == self.p && y == self.q) || (x == self.q && y == self.p)) && !self.is_silent()
    }

    /// Whether each of its states is below a number.
    pub(crate) fn is_below(&self, states: usize) -> bool
        ensures { result ≡ is_move_below states self.now }
    {
        (self.p as usize) < states
            && (self.q as usize) < states
            && (self.r as usize) < states
            && (self.s as usize) < states
    }
}

/// A population protocol.
#[derive(Drop)]
pub struct Leaf {
    states: List<Text>,
    moves: List<Move>,
    inputs: List<u16>,
    outputs: List<bool>,
    helpers: List<u16>,
    /// The states after a reaction, for each ordered pair of states.
    table: Vec<(u16, u16)>,
}

impl Model for Leaf {
    ghost use Rattle.std.specs.Prelude.{length};
    ghost use Rattle.pop_leaf.specs.LeafModel.{LeafModel, IsLeaf};
    ghost use Rattle.pop_leaf.specs.ReactionTable.{IsTable};

    ghost Value = { LeafModel };

    ghost view = { λ l.
        record { states = l.states; moves = l.moves; inputs = l.inputs; outputs = l.outputs; helpers = l.helpers } };

    ghost invariant = { λ l.
        IsLeaf (record {
          states = l.states;
          moves = l.moves;
          inputs = l.inputs;
          outputs = l.outputs;
          helpers = l.helpers;
        })
        × IsTable (length l.states) l.moves l.table.items };
}

impl Leaf {
    ghost use Rattle.pop_leaf.specs.LeafModel.{IsLeaf, silent_move};
    ghost use Rattle.pop_leaf.specs.NetModel.{is_wide_leaf};
    ghost use Rattle.pop_leaf.specs.Promises.{MakesLeaf, LeafReacts};

    /// A leaf without helpers: the names of its states, its moves, the start state of each variable,
    /// and the output of each state. It returns neither `Helpers` nor `Helper`.
    pub fn new(
        alloc: Global,
        states: List<Text>,
        moves: List<Move>,
        inputs: List<u16>,
        outputs: List<bool>,
    ) -> Result<Leaf, Failure<LeafFault>>
        ensures { MakesLeaf
            (record { states = states; moves = moves; inputs = inputs; outputs = outputs; helpers = [] })
            result }
    {
        let helpers = List::from_vec(Vec::new(alloc));
        Leaf::with_helpers(alloc, states, moves, inputs, outputs, helpers)
    }

    /// A leaf with helpers, given by the state of each.
    pub fn with_helpers(
        alloc: Global,
        states: List<Text>,
        moves: List<Move>,
        inputs: List<u16>,
        outputs: List<bool>,
        helpers: List<u16>,
    ) -> Result<Leaf, Failure<LeafFault>>
        ensures { MakesLeaf
            (record { states = states; moves = moves; inputs = inputs; outputs = outputs; helpers = helpers })
            result }
    {
        match leaf_fault(
            states.as_slice(),
            moves.as_slice(),
            inputs.as_slice(),
            outputs.as_slice(),
            helpers.as_slice(),
        ) {
            Some(fault) => Err(Failure::Fault(fault)),
            None => Ok(Leaf::of_valid(alloc, states, moves, inputs, outputs, helpers)?),
        }
    }

    /// A leaf of parts that are known to be valid.
    pub fn of_valid(
        alloc: Global,
        states: List<Text>,
        moves: List<Move>,
        inputs: List<u16>,
        outputs: List<bool>,
        helpers: List<u16>,
    ) -> Result<Leaf, NoMemory>
        requires { IsLeaf
            (record { states = states; moves = moves; inputs = inputs; outputs = outputs; helpers = helpers }) }
        ensures { IfOk result (λ leaf. leaf
            ≡ record { states = states; moves = moves; inputs = inputs; outputs = outputs; helpers = helpers }) }
    {
        let table = reaction_table(alloc, states.as_slice().len(), moves.as_slice())?;
        Ok(Leaf {
            states,
            moves,
            inputs,
            outputs,
            helpers,
            table,
        })
    }

    /// How many states it has, from 1 to `STATE_LIMIT`.
    pub fn state_count(&self) -> u16
        ensures count { result ≡ length self.now.states }
        ensures formed { IsLeaf self.now }
    {
        self.states.as_slice().len() as u16
    }

    /// The name of a state.
    pub fn name(&self, state: u16) -> &str
        requires { state < length self.now.states }
        ensures { slice_get self.now.states state ≡ Some result.now }
    {
        self.states.as_slice()[state as usize].as_str()
    }

    /// How many moves it lists, silent ones among them.
    pub fn move_count(&self) -> u32
        ensures { result ≡ length self.now.moves }
    {
        self.moves.as_slice().len() as u32
    }

    /// A move by its place in the list.
    pub fn move_at(&self, t: u32) -> Move
        requires { t < length self.now.moves }
        ensures { slice_get self.now.moves t ≡ Some result }
    {
        self.moves.as_slice()[t as usize]
    }

    /// Whether a move leaves the pair of its states unchanged, up to order.
    pub fn silent(&self, t: u32) -> bool
        requires { t < length self.now.moves }
        ensures { IfSome (slice_get self.now.moves t) (λ taken. result ≡ silent_move taken) }
    {
        self.moves.as_slice()[t as usize].is_silent()
    }

    /// How many variables it has a start state for, from 1 to `VARIABLE_LIMIT`.
    pub fn input_count(&self) -> u16
        ensures count { result ≡ length self.now.inputs }
        ensures formed { IsLeaf self.now }
    {
        self.inputs.as_slice().len() as u16
    }

    /// The state in which an agent of a variable starts.
    pub fn input(&self, variable: u16) -> u16
        requires { variable < length self.now.inputs }
        ensures start { slice_get self.now.inputs variable ≡ Some result }
        ensures bound { result < length self.now.states }
    {
        self.inputs.as_slice()[variable as usize]
    }

    /// The output of an agent in a state.
    pub fn output(&self, state: u16) -> bool
        requires { state < length self.now.states }
        ensures { slice_get self.now.outputs state ≡ Some result }
    {
        self.outputs.as_slice()[state as usize]
    }

    /// How many helpers it has.
    pub fn helper_count(&self) -> u32
        ensures { result ≡ length self.now.helpers }
    {
        self.helpers.as_slice().len() as u32
    }

    /// The state in which a helper starts.
    pub fn helper(&self, helper: u32) -> u16
        requires { helper < length self.now.helpers }
        ensures start { slice_get self.now.helpers helper ≡ Some result }
        ensures bound { result < length self.now.states }
    {
        self.helpers.as_slice()[helper as usize]
    }

    /// Whether a net with this leaf has wide words.
    pub fn is_wide(&self) -> bool
        ensures { result ≡ is_wide_leaf self.now }
    {
        NARROW_STATE_LIMIT < self.states.as_slice().len()
    }

    /// Takes the first non-silent move in the list that matches, and prefers its first way to its second.
    pub fn react(&self, x: u16, y: u16) -> (u16, u16)
        requires x_in { x < length self.now.states }
        requires y_in { y < length self.now.states }
        ensures { LeafReacts self.now x y result }
    {
        self.table[x as usize * self.states.as_slice().len() + y as usize]
    }

    /// An equal leaf.
    pub fn copy(&self, alloc: Global) -> Result<Leaf, NoMemory>
        ensures { IfOk result (λ leaf. leaf ≡ self.now) }
    {
        Ok(Leaf {
            states: copy_texts(alloc, self.states.as_slice())?,
            moves: self.moves.copy(alloc)?,
            inputs: self.inputs.copy(alloc)?,
            outputs: self.outputs.copy(alloc)?,
            helpers: self.helpers.copy(alloc)?,
            table: Vec::from_slice(alloc, self.table.as_slice())?,
        })
    }
}
