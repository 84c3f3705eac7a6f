//! The pairs of agents that a worker lets meet.

ghost use Rattle.std.specs.Prelude.{◌≡◌, ℕ, ◌≤◌, IfOk};
ghost use Rattle.run_picks.specs.CrowdSize.{IsCrowdSize};
ghost use Rattle.run_picks.specs.Picks.{words_from, first_state, picks_from, picks, IsPairBelow, IsNextPick};

use crate::divisor::Divisor;
use pop_crowd::AGENT_LEAST;
use pop_io::NoMemory;
use rand_core::{Rng, SeedableRng};
use rand_xoshiro::Xoshiro256PlusPlus;
use run_spec::SEED_LIMIT;
use std::marker::Model;

/// A worker's random words; contracts see the state. Xoshiro256++ is a generator of
/// Blackman and Vigna.
#[derive(Drop)]
pub struct Picker {
    words: Xoshiro256PlusPlus,
    /// How many agents the last pick was among, and how many are left once one is picked.
    agents: Divisor,
    others: Divisor,
}

impl Model for Picker {
    ghost use Rattle.std.specs.Prelude.{◌≡◌, ◌+◌, ℕ, List};

    ghost Value = { List ℕ };

    ghost view = { λ p. p.words };

    ghost invariant = { λ p. p.agents ≡ p.others + 1 };
}

impl Picker {
    /// The picker of a worker that has made no pick. It allocates nothing.
    pub fn new(seed: u64, worker: u16) -> Picker
        requires { seed ≤ SEED_LIMIT }
        ensures state { result ≡ first_state seed worker }
        ensures picks { (n count : ℕ) → picks_from (words_from result) n count ≡ picks seed worker n count }
    {
        Picker {
            words: Xoshiro256PlusPlus::seed_from_u64(seed + u64::from(worker)),
            agents: Divisor::of(AGENT_LEAST),
            others: Divisor::of(AGENT_LEAST - 1),
        }
    }

    /// A picker that makes the same picks.
    pub fn copy(&self) -> Result<Picker, NoMemory>
        ensures { IfOk result (λ picker. picker ≡ self.now) }
    {
        Ok(Picker {
            words: self.words.clone()?,
            agents: Divisor::of(AGENT_LEAST),
            others: Divisor::of(AGENT_LEAST - 1),
        })
    }

    /// Two different agents of `n`, from the next word. It allocates nothing.
    #[inline(always)]
    pub fn pick(&mut self, n: u32) -> (u32, u32)
        requires { IsCrowdSize n }
        ensures next { IsNextPick n self.old self.new result }
        ensures pair { IsPairBelow n result }
    {
        if self.agents.number() != n {
            self.agents = Divisor::of(n);
            self.others = Divisor::of(n - 1);
        }
        let word = self.words.next_u64();
        let a = self.agents.remainder((word >> 32) as u32);
        let b = self.others.remainder((word % (1 << 32)) as u32);
        (a, if a <= b { b + 1 } else { b })
    }
}
