//! The takes so far, and the crowd that they led to.

ghost use Rattle.std.specs.Prelude.{◌≡◌, ◌≢◌, ◌<◌, [], ◌∷◌, ◌++◌, length, IfOk, IfSome, OnOk, slice_get, slice_set};
ghost use Rattle.pop_leaf.specs.NetModel.{IsNet};
ghost use Rattle.pop_net.specs.Lanes.{crowd_of, AreValid};
ghost use Rattle.pop_settle.specs.Settlement.{tuple_with_state};
ghost use Rattle.pop_settle.specs.Walks.{TakesTo};

use crate::take::Take;
use pop_crowd::Crowd;
use pop_io::NoMemory;
use pop_net::{Net, Word};
use std::alloc::Global;

/// The words of a crowd, and the takes that led to it.
#[derive(Drop)]
pub(crate) struct Walk {
    pub(crate) words: Vec<Word>,
    pub(crate) takes: Vec<Take>,
}

impl Walk {
    /// A crowd before any take.
    pub(crate) fn of_crowd(alloc: Global, crowd: &Crowd) -> Result<Walk, NoMemory>
        ensures words { IfOk result (λ walk. walk.words.items ≡ crowd.now) }
        ensures takes { IfOk result (λ walk. walk.takes.items ≡ []) }
    {
        let mut words = Vec::new(alloc);
        for agent in 0..crowd.len() {
            words.push(crowd.word(agent))?;
        }
        let takes = Vec::new(alloc);
        Ok(Walk { words, takes })
    }

    /// One more take.
    pub(crate) fn make(&mut self, net: &Net, take: Take) -> Result<(), NoMemory>
        requires formed { IsNet net.now }
        requires valid { AreValid net.now self.old.words.items }
        requires leaf_in { take.leaf < length net.now.leaves }
        requires step_in { IfSome (slice_get net.now.leaves take.leaf) (λ leaf. take.step < length leaf.moves) }
        requires different { take.a ≢ take.b }
        requires first_in { take.a < length self.old.words.items }
        requires second_in { take.b < length self.old.words.items }
        ensures taken { OnOk result
            (TakesTo net.now take (crowd_of net.now self.old.words.items) (crowd_of net.now self.new.words.items)) }
        ensures takes { OnOk result (self.new.takes.items ≡ self.old.takes.items ++ take ∷ []) }
        ensures valid { AreValid net.now self.new.words.items }
        ensures agents { length self.new.words.items ≡ length self.old.words.items }
    {
        let t = net.leaf(take.leaf).move_at(take.step);
        self.change(net, take.leaf, take.a, t.r);
        self.change(net, take.leaf, take.b, t.s);
        self.takes.push(take)?;
        Ok(())
    }

    /// An agent gets another state of a leaf.
    fn change(&mut self, net: &Net, leaf: u8, agent: u32, state: u16)
        requires valid { AreValid net.now self.old.words.items }
        requires leaf_in { leaf < length net.now.leaves }
        requires state_in { IfSome (slice_get net.now.leaves leaf) (λ l. state < length l.states) }
        requires agent_in { agent < length self.old.words.items }
        ensures changed { crowd_of net.now self.new.words.items
            ≡ slice_set (crowd_of net.now self.old.words.items) agent
            (tuple_with_state leaf agent state (crowd_of net.now self.old.words.items)) }
        ensures takes { self.new.takes ≡ self.old.takes }
        ensures valid { AreValid net.now self.new.words.items }
        ensures agents { length self.new.words.items ≡ length self.old.words.items }
    {
        let word = self.words[agent as usize];
        self.words[agent as usize] = net.with_state(word, leaf, state);
    }
}
