//! Protocols that run side by side on the same agents, and a combination of their outputs.

ghost use Rattle.std.specs.Prelude.{◌≡◌, ◌<◌, ◌↔◌, length, Some, IfOk, IfSome, IsTrue, slice_get, slice_set};

use crate::combination::value_of;
use crate::copies::copy_leaves;
use crate::fault::NetFault;
use crate::lanes::LaneWidth;
use crate::rules::net_fault;
use crate::words::{helper_word, is_valid_word, react_words, start_word, word_outputs};
use pop_io::{List, NoMemory, Text};
use pop_leaf::{Item, Leaf, copy_texts};
use std::alloc::Global;
use std::marker::Model;

/// One state per leaf, packed: eight bits per leaf, or sixteen in a wide net, leaf 0 lowest.
#[derive(Clone, Copy, PartialEq, Eq)]
pub struct Word(pub u64);

/// Protocols that run side by side on the same agents.
#[derive(Drop)]
pub struct Net {
    vars: List<Text>,
    leaves: List<Leaf>,
    combine: List<Item>,
    lanes: LaneWidth,
}

impl Model for Net {
    ghost use Rattle.std.specs.Prelude.{◌≡◌};
    ghost use Rattle.pop_leaf.specs.NetModel.{NetModel, IsNet};
    ghost use Rattle.pop_net.specs.LaneWidth.{width_of};

    ghost Value = { NetModel };

    ghost view = { λ n. record { variables = n.vars; leaves = n.leaves; combine = n.combine } };

    ghost invariant = { λ n.
        IsNet (record { variables = n.vars; leaves = n.leaves; combine = n.combine }) × (n.lanes ≡ width_of n.leaves) };
}

impl Net {
    ghost use Rattle.pop_leaf.specs.NetModel.{IsNet, state_of, output_of, number_of_helpers};
    ghost use Rattle.pop_leaf.specs.InputCrowd.{start_of, helper_of};
    ghost use Rattle.pop_net.specs.Lanes.{tuple_of, IsValid};
    ghost use Rattle.pop_net.specs.Promises.{MakesNet, NetReacts, IsWordOf, StartsAs};

    /// A net of the variables' names, the leaves, and the combination in postfix. It allocates nothing.
    pub fn new(
        alloc: Global,
        vars: List<Text>,
        leaves: List<Leaf>,
        combine: List<Item>,
    ) -> Result<Net, NetFault>
        ensures { MakesNet (record { variables = vars; leaves = leaves; combine = combine }) result }
    {
        let _ = alloc;
        match net_fault(vars.as_slice(), leaves.as_slice(), combine.as_slice()) {
            Some(fault) => Err(fault),
            None => Ok(Net::of_valid(vars, leaves, combine)),
        }
    }

    /// A net of parts that are known to be valid. It allocates nothing.
    pub fn of_valid(vars: List<Text>, leaves: List<Leaf>, combine: List<Item>) -> Net
        requires { IsNet (record { variables = vars; leaves = leaves; combine = combine }) }
        ensures { result ≡ record { variables = vars; leaves = leaves; combine = combine } }
    {
        let lanes = LaneWidth::of_leaves(leaves.as_slice());
        Net {
            vars,
            leaves,
            combine,
            lanes,
        }
    }

    /// How many variables it has, from 1 to `VARIABLE_LIMIT`.
    pub fn var_count(&self) -> u16
        ensures count { result ≡ length self.now.variables }
        ensures formed { IsNet self.now }
    {
        self.vars.as_slice().len() as u16
    }

    /// The names of the variables, in their order.
    pub fn var_names(&self) -> &List<Text>
        ensures names { result.now ≡ self.now.variables }
        ensures formed { IsNet self.now }
    {
        &self.vars
    }

    /// How many leaves it has, from 1 to `LEAF_LIMIT`.
    pub fn leaf_count(&self) -> u8
        ensures count { result ≡ length self.now.leaves }
        ensures formed { IsNet self.now }
    {
        self.leaves.as_slice().len() as u8
    }

    /// A leaf by its number.
    pub fn leaf(&self, i: u8) -> &Leaf
        requires { i < length self.now.leaves }
        ensures { slice_get self.now.leaves i ≡ Some result.now }
    {
        &self.leaves.as_slice()[i as usize]
    }

    /// How many items the combination has, from 1 to `ITEM_LIMIT`.
    pub fn item_count(&self) -> u32
        ensures { result ≡ length self.now.combine }
    {
        self.combine.as_slice().len() as u32
    }

    /// An item of the combination by its place.
    pub fn item(&self, i: u32) -> Item
        requires { i < length self.now.combine }
        ensures { slice_get self.now.combine i ≡ Some result }
    {
        self.combine.as_slice()[i as usize]
    }

    /// Whether each lane holds a state of its leaf, and the lanes past the last leaf are 0.
    pub fn valid(&self, word: Word) -> bool
        ensures { IsTrue result ↔ IsValid self.now word }
    {
        is_valid_word(self.lanes, self.leaves.as_slice(), word.0)
    }

    /// The state of a leaf in a word.
    pub fn lane(&self, word: Word, leaf: u8) -> u16
        requires valid { IsValid self.now word }
        requires leaf_in { leaf < length self.now.leaves }
        ensures state { result ≡ state_of (tuple_of self.now word) leaf }
        ensures bound { IfSome (slice_get self.now.leaves leaf) (λ l. result < length l.states) }
    {
        // Makes the invariant known here: a word has a lane for each leaf.
        let _formed = &self.leaves;
        self.lanes.state(word.0, leaf as usize)
    }

    /// The word with another state of one leaf.
    pub fn with_state(&self, word: Word, leaf: u8, state: u16) -> Word
        requires valid { IsValid self.now word }
        requires leaf_in { leaf < length self.now.leaves }
        requires state_in { IfSome (slice_get self.now.leaves leaf) (λ l. state < length l.states) }
        ensures { IsWordOf self.now (slice_set (tuple_of self.now word) leaf state) result }
    {
        let at = self.lanes.bits() * usize::from(leaf);
        let had = u64::from(self.lane(word, leaf)) << at;
        let gets = u64::from(state) << at;
        Word(word.0 - had + gets)
    }

    /// Each leaf reacts by itself.
    pub fn react(&self, a: Word, b: Word) -> (Word, Word)
        requires a_valid { IsValid self.now a }
        requires b_valid { IsValid self.now b }
        ensures { NetReacts self.now a b result }
    {
        let (first, second) = react_words(self.lanes, self.leaves.as_slice(), a.0, b.0);
        (Word(first), Word(second))
    }

    /// The combination of the leaves' outputs.
    pub fn output(&self, word: Word) -> bool
        requires { IsValid self.now word }
        ensures { result ≡ output_of self.now (tuple_of self.now word) }
    {
        let leaves = self.leaves.as_slice();
        let outputs = word_outputs(self.lanes, leaves, word.0);
        value_of(self.combine.as_slice(), &outputs[..leaves.len()])
    }

    /// The word in which an agent of a variable starts.
    pub fn start(&self, variable: u16) -> Word
        requires { variable < length self.now.variables }
        ensures { StartsAs self.now (start_of self.now variable) result }
    {
        Word(start_word(self.lanes, self.leaves.as_slice(), variable))
    }

    /// How many helpers are in every input.
    pub fn helper_count(&self) -> u32
        ensures { result ≡ number_of_helpers self.now }
    {
        match self.leaves.as_slice() {
            [] => 0,
            [leaf, ..] => leaf.helper_count(),
        }
    }

    /// The word in which a helper starts.
    pub fn helper(&self, helper: u32) -> Word
        requires { helper < number_of_helpers self.now }
        ensures { StartsAs self.now (helper_of self.now helper) result }
    {
        Word(helper_word(self.lanes, self.leaves.as_slice(), helper))
    }

    /// An equal net.
    pub fn copy(&self, alloc: Global) -> Result<Net, NoMemory>
        ensures { IfOk result (λ net. net ≡ self.now) }
    {
        Ok(Net {
            vars: copy_texts(alloc, self.vars.as_slice())?,
            leaves: copy_leaves(alloc, self.leaves.as_slice())?,
            combine: self.combine.copy(alloc)?,
            lanes: self.lanes,
        })
    }
}
