//! A set of states.

ghost use Rattle.std.specs.Prelude.{◌≡◌, ◌<◌, map, IfOk};
ghost use Rattle.std.specs.List.{range_with_len};
ghost use Rattle.pop_leaf.specs.LeafModel.{IsLeaf};
ghost use Rattle.cert_base.specs.FactsAndCases.{is_in, states_of, helpers_among};

use pop_io::{List, NoMemory};
use pop_leaf::{Leaf, STATE_LIMIT};
use std::alloc::Global;
use std::marker::Model;

/// The states that are listed, and for each state whether it is.
#[derive(Drop)]
pub struct StateSet {
    listed: List<u16>,
    inside: Vec<bool>,
}

impl Model for StateSet {
    ghost use Rattle.std.specs.Prelude.{◌≡◌, List as Items, ℕ, map};
    ghost use Rattle.std.specs.List.{range_with_len};
    ghost use Rattle.pop_leaf.specs.declared.limits.TheConstants.{STATE_LIMIT};
    ghost use Rattle.cert_base.specs.FactsAndCases.{is_in};

    ghost Value = { Items ℕ };

    ghost view = { λ s. s.listed };

    ghost invariant = { λ s. s.inside.items ≡ map (is_in s.listed) (range_with_len 0 STATE_LIMIT) };
}

impl StateSet {
    pub fn new(alloc: Global, listed: &List<u16>) -> Result<StateSet, NoMemory>
        ensures { IfOk result (λ set. set ≡ listed.now) }
    {
        let inside = table(alloc, listed.as_slice())?;
        Ok(StateSet {
            listed: listed.copy(alloc)?,
            inside,
        })
    }

    /// Whether a state is in the set.
    pub fn contains(&self, q: u16) -> bool
        requires { q < STATE_LIMIT }
        ensures { result ≡ is_in self.now q }
    {
        self.inside[usize::from(q)]
    }

    /// For each state whether it is in the set.
    pub(crate) fn states(&self, alloc: Global, leaf: &Leaf) -> Result<Vec<bool>, NoMemory>
        ensures flags { IfOk result (λ flags. flags.items ≡ map (is_in self.now) (states_of leaf.now)) }
        ensures formed { IsLeaf leaf.now }
    {
        let flags = (0..leaf.state_count())
            .map(|q| self.contains(q))
            .collect(alloc)?;
        Ok(flags)
    }

    /// How many helpers are in the set.
    pub(crate) fn helpers(&self, leaf: &Leaf) -> u32
        requires { IsLeaf leaf.now }
        ensures { result ≡ helpers_among leaf.now self.now }
    {
        let mut count = 0;
        for j in 0..leaf.helper_count() {
            count += u32::from(self.contains(leaf.helper(j)));
        }
        count
    }

    /// For each input whether it starts in the set.
    pub(crate) fn starts(&self, alloc: Global, leaf: &Leaf) -> Result<Vec<bool>, NoMemory>
        ensures flags { IfOk result (λ flags. flags.items ≡ map (is_in self.now) leaf.now.inputs) }
        ensures formed { IsLeaf leaf.now }
    {
        let mut flags = Vec::new(alloc);
        for i in 0..leaf.input_count() {
            flags.push(self.contains(leaf.input(i)))?;
        }
        Ok(flags)
    }
}

fn table(alloc: Global, listed: &[u16]) -> Result<Vec<bool>, NoMemory>
    ensures { IfOk result (λ table. table.items ≡ map (is_in listed.now) (range_with_len 0 STATE_LIMIT)) }
{
    let table = (0..STATE_LIMIT as u16)
        .map(|q| listed.contains(&q))
        .collect(alloc)?;
    Ok(table)
}
