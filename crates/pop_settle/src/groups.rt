//! The agents of a leaf, by their states.

ghost use Rattle.std.specs.Prelude.{◌≡◌, ℕ, ◌<◌, ◌≤◌, List, [], length, IfOk, IfSome, IfNone, OnOk, IsTrue, slice_get};
ghost use Rattle.pop_leaf.specs.LeafModel.{IsMoveBelow};
ghost use Rattle.pop_net.specs.Lanes.{crowd_of, AreValid};
ghost use Rattle.pop_crowd.specs.declared.limits.TheConstants.{AGENT_LIMIT};
ghost use Rattle.pop_settle.specs.Settlement.{states_in};
ghost use Rattle.pop_settle.specs.Groups.{AreAlike, AreGroups, IsEmptyGroup, IsLeastOf, IsMade, Puts, Takes};

use pop_io::NoMemory;
use pop_net::{Move, Net, Word};
use std::alloc::Global;
use std::collections::BTreeSet;

/// For each state of a leaf, the numbers of the agents that hold it.
#[derive(Drop)]
pub(crate) struct Groups {
    groups: Vec<BTreeSet<u32>>,
}

impl Groups {
    /// The agents of these words by their states in a leaf.
    pub(crate) fn of_leaf(
        alloc: Global,
        net: &Net,
        words: &[Word],
        leaf: u8,
    ) -> Result<Groups, NoMemory>
        requires leaf_in { leaf < length net.now.leaves }
        requires valid { AreValid net.now words.now }
        requires few { length words.now ≤ AGENT_LIMIT }
        ensures grouped { IfOk result (λ g. AreGroups (states_in leaf (crowd_of net.now words.now)) g.groups.items) }
        ensures count { IfOk result
            (λ g. IfSome (slice_get net.now.leaves leaf) (λ l. length g.groups.items ≡ length l.states)) }
    {
        let mut groups = Groups::empty(alloc, net.leaf(leaf).state_count())?;
        for (agent, word) in words.iter().enumerate() {
            groups.put(net.lane(*word, leaf), agent as u32)?;
        }
        Ok(groups)
    }

    /// A group for each state, all of them empty.
    fn empty(alloc: Global, states: u16) -> Result<Groups, NoMemory>
        ensures count { IfOk result (λ g. length g.groups.items ≡ states) }
        ensures grouped { IfOk result (λ g. AreGroups [] g.groups.items) }
    {
        let mut groups = Vec::with_capacity(alloc, states as usize)?;
        for _state in 0..states {
            groups.push(BTreeSet::new(alloc))?;
        }
        Ok(Groups { groups })
    }

    /// The least agents that can take a move take it, if there are two that can.
    pub(crate) fn make(&mut self, t: Move) -> Result<Option<(u32, u32)>, NoMemory>
        requires { IsMoveBelow (length self.old.groups.items) t }
        ensures count { length self.new.groups.items ≡ length self.old.groups.items }
        ensures made { IfOk result
            (λ found. (states : List ℕ) → AreGroups states self.old.groups.items
            → IsMade states t found self.new.groups.items) }
    {
        if t.is_silent() || self.is_empty(t.q) {
            return Ok(None);
        }
        let Some(a) = self.pop(t.p) else {
            return Ok(None);
        };
        let Some(b) = self.pop(t.q) else {
            self.put(t.p, a)?;
            return Ok(None);
        };
        self.put(t.r, a)?;
        self.put(t.s, b)?;
        Ok(Some((a, b)))
    }

    /// Whether no agent holds a state.
    pub(crate) fn is_empty(&self, state: u16) -> bool
        requires { state < length self.now.groups.items }
        ensures { IsTrue result → IsEmptyGroup self.now.groups.items state }
    {
        self.groups[state as usize].is_empty()
    }

    /// Takes the least agent out of a group.
    fn pop(&mut self, state: u16) -> Option<u32>
        requires { state < length self.old.groups.items }
        ensures count { length self.new.groups.items ≡ length self.old.groups.items }
        ensures some { IfSome result (λ agent. IsLeastOf self.old.groups.items state agent) }
        ensures gone { IfSome result (λ agent. Takes self.old.groups.items state agent self.new.groups.items) }
        ensures none { IfNone result (IsEmptyGroup self.old.groups.items state) }
        ensures same { IfNone result (AreAlike self.old.groups.items self.new.groups.items) }
    {
        self.groups[state as usize].pop_first()
    }

    fn put(&mut self, state: u16, agent: u32) -> Result<(), NoMemory>
        requires { state < length self.old.groups.items }
        ensures count { length self.new.groups.items ≡ length self.old.groups.items }
        ensures put { OnOk result (Puts self.old.groups.items state agent self.new.groups.items) }
    {
        self.groups[state as usize].insert(agent)?;
        Ok(())
    }
}
