//! Crowds of agents, and their meetings one after the other.

ghost use Rattle.std.specs.Prelude.{◌≡◌, ◌≢◌, ◌<◌, ◌≤◌, ◌==◌, ◌||◌, not, length, Some, IfOk, slice_get};

use crate::fault::CrowdFault;
use crate::limits::{AGENT_LEAST, AGENT_LIMIT};
use crate::lines::lines_of;
use crate::starts::{input_words, size};
use pop_io::{Failure, List, NoMemory};
use pop_net::{Net, Word};
use std::alloc::Global;
use std::marker::Model;

/// A crowd of `AGENT_LEAST` to `AGENT_LIMIT` agents. Contracts see the list of its words.
#[derive(Drop)]
pub struct Crowd {
    words: Vec<Word>,
}

impl Model for Crowd {
    ghost use Rattle.std.specs.Prelude.{List, ◌≤◌, length};
    ghost use Rattle.pop_net.specs.declared.net.Word.{Word};
    ghost use Rattle.pop_crowd.specs.declared.limits.TheConstants.{AGENT_LEAST, AGENT_LIMIT};

    ghost Value = { List Word };

    ghost view = { λ c. c.words.items };

    ghost invariant = { λ c. (AGENT_LEAST ≤ length c.words.items) × (length c.words.items ≤ AGENT_LIMIT) };
}

/// A meeting of two agents by a worker, and whether it changed a word.
#[derive(Clone, Copy, PartialEq, Eq)]
pub struct Meeting {
    pub worker: u16,
    pub a: u32,
    pub b: u32,
    pub changed: bool,
}

/// Whether one of two words has changed.
pub fn differ(old: (Word, Word), new: (Word, Word)) -> bool
    ensures { result ≡ (not (new.0.0 == old.0.0) || not (new.1.0 == old.1.0)) }
{
    new.0 != old.0 || new.1 != old.1
}

impl Crowd {
    ghost use Rattle.pop_net.specs.Lanes.{crowd_of, AreValid};
    ghost use Rattle.pop_crowd.specs.Tally.{crowd_lines, tuples_of, AreTuplesOf};
    ghost use Rattle.pop_crowd.specs.Replay.{AreMeetings};
    ghost use Rattle.pop_crowd.specs.Calls.{IsCrowdOfCounts, AreWordsOf, IsSizeOf, HasMet, HasReplayed};

    /// The input crowd: first the agents of variable 0, then those of variable 1, and so on, then the helpers.
    pub fn of_counts(alloc: Global, net: &Net, counts: &[u64]) -> Result<Crowd, Failure<CrowdFault>>
        requires { length counts.now ≡ length net.now.variables }
        ensures { IsCrowdOfCounts net.now counts.now result }
    {
        let _ = net.var_count();
        let agents = size(net, counts);
        if agents < u128::from(AGENT_LEAST) || u128::from(AGENT_LIMIT) < agents {
            return Err(Failure::Fault(CrowdFault::Size(agents)));
        }
        let words = input_words(alloc, net, counts)?;
        Ok(Crowd { words })
    }

    /// A crowd of these words. It allocates nothing.
    pub fn of_words(net: &Net, words: List<Word>) -> Crowd
        requires valid { AreValid net.now words }
        requires some { AGENT_LEAST ≤ length words }
        requires few { length words ≤ AGENT_LIMIT }
        ensures { result ≡ words }
    {
        let _ = net;
        Crowd {
            words: words.into_vec(),
        }
    }

    /// The words, owned. It allocates nothing.
    pub fn into_words(self) -> List<Word>
        ensures { AreWordsOf self result }
    {
        let Crowd { words } = self;
        List::from_vec(words)
    }

    /// The number of agents.
    pub fn len(&self) -> u32
        ensures { IsSizeOf self.now result }
    {
        self.words.len() as u32
    }

    /// An agent's states.
    pub fn word(&self, agent: u32) -> Word
        requires { agent < length self.now }
        ensures { slice_get self.now agent ≡ Some result }
    {
        self.words[agent as usize]
    }

    /// Two agents react, and all others stay. Returns whether a word changed.
    pub fn meet(&mut self, net: &Net, a: u32, b: u32) -> bool
        requires different { a ≢ b }
        requires a_in { a < length self.old }
        requires b_in { b < length self.old }
        requires valid { AreValid net.now self.old }
        ensures { HasMet net.now a b result self.old self.new }
    {
        let x = self.words[a as usize];
        let y = self.words[b as usize];
        let (first, second) = net.react(x, y);
        self.words[a as usize] = first;
        self.words[b as usize] = second;
        differ((x, y), (first, second))
    }

    /// Makes meetings one after the other, and ignores what they say about changes.
    /// Returns the number of meetings that changed a word.
    pub fn replay(&mut self, net: &Net, meetings: &[Meeting]) -> u64
        requires meetings { AreMeetings (length self.old) meetings.now }
        requires valid { AreValid net.now self.old }
        ensures { HasReplayed net.now meetings.now result self.old self.new }
    {
        let mut changed = 0;
        for meeting in meetings {
            if self.meet(net, meeting.a, meeting.b) {
                changed += 1;
            }
        }
        changed
    }

    /// An equal crowd.
    pub fn copy(&self, alloc: Global) -> Result<Crowd, NoMemory>
        ensures { IfOk result (λ crowd. crowd ≡ self.now) }
    {
        let words = Vec::from_slice(alloc, self.words.as_slice())?;
        Ok(Crowd { words })
    }

    /// The crowd lines: for each tuple that an agent has, in ascending order, the names of its states
    /// joined by `/`, a space, the number of agents that have it, and a line feed.
    pub fn tally(&self, alloc: Global, net: &Net) -> Result<List<u8>, NoMemory>
        requires { AreValid net.now self.now }
        ensures lines { IfOk result (λ text. text ≡ crowd_lines net.now (crowd_of net.now self.now)) }
        // The lines are those of exactly the tuples that agents have, in ascending order.
        ensures tuples { AreTuplesOf (crowd_of net.now self.now) (tuples_of (crowd_of net.now self.now)) }
    {
        let text = lines_of(alloc, net, self.words.as_slice())?;
        Ok(List::from_vec(text))
    }
}
