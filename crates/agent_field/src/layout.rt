//! The words of a crowd as they go into a field's table.

ghost use Rattle.std.specs.Prelude.{◌≡◌, ◌≤◌, length, OnOk};
ghost use Rattle.agent_field.specs.Standing.{laid_out};

use crate::places::HEAD_WORDS;
use pop_crowd::AGENT_LIMIT;
use pop_io::NoMemory;
use pop_net::Word;
use std::alloc::Global;

/// Nothing, or the words of a crowd laid out for a table. Fields that follow one another share it: each renews the
/// words of the agents that changed, so the crowd is laid out once.
#[derive(Drop)]
pub struct Layout {
    pub(crate) words: Vec<u64>,
}

/// Lays words out for a table with so many shards.
fn lay_out(all: &mut Vec<u64>, words: &[Word], shards: u32) -> Result<(), NoMemory>
    requires { length words.now ≤ AGENT_LIMIT }
    ensures { OnOk result (all.new.items ≡ laid_out shards words.now) }
{
    all.clear();
    all.reserve(HEAD_WORDS + shards as usize + words.len())?;
    all.resize(HEAD_WORDS, 0)?;
    for (a, word) in words.iter().enumerate() {
        if a < shards as usize {
            all.push_reserved(0);
        }
        all.push_reserved(word.0);
    }
    all.resize(HEAD_WORDS + shards as usize + words.len(), 0)?;
    Ok(())
}

impl Layout {
    ghost use Rattle.std.specs.Prelude.{slice_set};
    ghost use Rattle.agent_field.specs.Layouts.{IsBare, Serves};

    /// Nothing is laid out. It allocates nothing.
    pub fn new(alloc: Global) -> Layout
        ensures { IsBare result }
    {
        Layout {
            words: Vec::new(alloc),
        }
    }

    /// Forgets what is laid out.
    pub fn clear(&mut self)
        ensures { IsBare self.new }
    {
        self.words.clear();
    }

    /// Lays the words out, where they are not.
    pub(crate) fn lay(&mut self, words: &[Word], shards: u32) -> Result<(), NoMemory>
        requires few { length words.now ≤ AGENT_LIMIT }
        requires serves { Serves self.old words.now shards }
        ensures { OnOk result (self.new.words.items ≡ laid_out shards words.now) }
    {
        if self.words.is_empty() {
            lay_out(&mut self.words, words, shards)?;
        }
        Ok(())
    }

    /// Writes one word, where words are laid out.
    pub(crate) fn put(&mut self, place: usize, word: u64)
        ensures { self.new.words.items ≡ slice_set self.old.words.items place word }
    {
        if place < self.words.len() {
            self.words[place] = word;
        }
    }
}
