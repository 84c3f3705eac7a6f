//! The least pair of agents whose meeting changes a word, in time linear in the number of agents.

ghost use Rattle.std.specs.Prelude.{◌≡◌, ◌↔◌, map, true, None, IfOk, IfSome};
ghost use Rattle.pop_net.specs.Lanes.{crowd_of, AreValid};
ghost use Rattle.pop_leaf.specs.Step.{Step};
ghost use Rattle.pop_leaf.specs.Terminal.{IsTerminal};
ghost use Rattle.terminal_test.specs.Loud.{pairs_of_moves};
ghost use Rattle.terminal_test.specs.Pairs.{IsEnabled, IsLeastPair, MovesOn};

use crate::loud::loud_pairs;
use crate::partner::{pair_beside, partner};
use crate::restless::{is_restless, restless_states};
use pop_crowd::Crowd;
use pop_io::{List, NoMemory};
use pop_net::Net;
use std::alloc::Global;

/// What reacts in a net, made once and used for many crowds.
#[derive(Drop)]
pub struct PairTable<'n> {
    pub(crate) net: &'n Net,
    /// For each leaf the pairs of states that react.
    loud: Vec<List<(u16, u16)>>,
    ghost pairs: { loud.items ≡ map (λ leaf. pairs_of_moves leaf.moves) net.now.leaves },
}

impl<'n> PairTable<'n> {
    ghost use Rattle.terminal_test.specs.TableNet.{table_net};

    /// The pairs of states that react in each leaf of the net.
    pub fn new(alloc: Global, net: &'n Net) -> Result<PairTable<'n>, NoMemory>
        ensures { IfOk result (λ table. table_net table ≡ net.now) }
    {
        let mut loud = Vec::new(alloc);
        for leaf in 0..net.leaf_count() {
            loud.push(loud_pairs(alloc, net.leaf(leaf))?)?;
        }
        Ok(PairTable { net, loud })
    }

    /// `None` exactly when the crowd is terminal, else the pair `(a, b)` with `a < b` whose meeting changes a
    /// word, the least by `a` and then by `b`.
    pub fn enabled_pair(&self, alloc: Global, crowd: &Crowd) -> Result<Option<(u32, u32)>, NoMemory>
        requires { AreValid (table_net self.now) crowd.now }
        ensures none { IfOk result
            (λ found. (found ≡ None)
            ↔ IsTerminal (Step (table_net self.now)) (crowd_of (table_net self.now) crowd.now)) }
        ensures least { IfOk result
            (λ found.
            IfSome found (λ pair.
            IsLeastPair (table_net self.now) (crowd_of (table_net self.now) crowd.now) pair.0 pair.1)) }
        // If a pair is enabled, a step of the model leads to another crowd.
        ensures moves { IfOk result
            (λ found. IfSome found (λ _. MovesOn (table_net self.now) (crowd_of (table_net self.now) crowd.now))) }
    {
        let restless = restless_states(alloc, self.net, self.loud.as_slice(), crowd)?;
        for a in 0..crowd.len() {
            if is_restless(self.net, restless.as_slice(), crowd.word(a)) {
                if let Some(b) = partner(self.net, crowd, a) {
                    return Ok(Some((a, b)));
                }
            }
        }
        Ok(None)
    }

    /// Whether a crowd is terminal. The pair found last is tested first, and then its first agent with those after
    /// it. Only if no such meeting changes a word are all agents searched. The pair found is kept.
    pub fn is_terminal(
        &self,
        alloc: Global,
        crowd: &Crowd,
        last: &mut Option<(u32, u32)>,
    ) -> Result<bool, NoMemory>
        requires { AreValid (table_net self.now) crowd.now }
        ensures terminal { IfOk result
            (λ terminal. (terminal ≡ true)
            ↔ IsTerminal (Step (table_net self.now)) (crowd_of (table_net self.now) crowd.now)) }
        // The kept pair is enabled in this crowd.
        ensures kept { IfOk result
            (λ _. IfSome last.new
            (λ pair. IsEnabled (table_net self.now) (crowd_of (table_net self.now) crowd.now) pair.0 pair.1)) }
    {
        if let Some(pair) = *last {
            if let Some(next) = pair_beside(self.net, crowd, pair) {
                *last = Some(next);
                return Ok(false);
            }
        }
        let found = self.enabled_pair(alloc, crowd)?;
        *last = found;
        Ok(found.is_none())
    }
}
