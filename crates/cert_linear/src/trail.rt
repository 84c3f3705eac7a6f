//! The facts of the case at which a tree stands.

ghost use Rattle.std.specs.Prelude.{◌≡◌, ◌≤◌, length};

use crate::closing::residue;
use crate::tally::Tally;
use cert_base::{FACT_LIMIT, Fact, Term};
use pop_io::{List, NoMemory};
use std::alloc::Global;
use std::marker::Model;

/// At most `FACT_LIMIT` facts, the last of which can be cut off. Contracts see it as their list.
#[derive(Drop)]
pub struct Trail {
    alloc: Global,
    facts: Vec<Fact>,
    /// The facts below this number are those given to `new`.
    stable: u32,
    /// Used again for each sum of facts.
    tally: Tally,
}

impl Model for Trail {
    ghost use Rattle.std.specs.Prelude.{List as Items, ◌≤◌, length};
    ghost use Rattle.cert_base.specs.declared.fact.Fact.{Fact};
    ghost use Rattle.cert_base.specs.contracts.fact.Fact as fact;
    ghost use Rattle.std.specs.Coded.{coded_list};
    ghost use Rattle.cert_base.specs.declared.limits.TheConstants.{FACT_LIMIT};
    ghost use Rattle.cert_linear.specs.Kept.{IsKept};

    ghost Value = { Items Fact };

    ghost coded = { coded_list fact.the_row.coded };

    ghost view = { λ t. t.facts.items };

    ghost invariant = { λ t. (length t.facts.items ≤ FACT_LIMIT) × (t.stable ≤ length t.facts.items)
        × IsKept t.stable t.facts.items t.tally };
}

impl Trail {
    ghost use Rattle.std.specs.Prelude.{◌≡◌, ◌≤◌, ◌<◌, ◌+◌, take, length, Some, slice_get, IfOk};
    ghost use Rattle.cert_base.specs.ClosingTests.{closes_by_sum, closes_by_residue};
    ghost use Rattle.cert_linear.specs.Conditions.{IsCombination, TellsRefuted};
    ghost use Rattle.cert_linear.specs.Trails.{AddsFact, AppendsFacts};

    /// It allocates nothing.
    pub fn new(alloc: Global, facts: List<Fact>) -> Trail
        requires { length facts ≤ FACT_LIMIT }
        ensures { result ≡ facts }
    {
        Trail {
            alloc,
            stable: facts.as_slice().len() as u32,
            facts: facts.into_vec(),
            tally: Tally::new(alloc),
        }
    }

    /// The number of facts. It allocates nothing.
    pub fn len(&self) -> u32
        ensures length { result ≡ length self.now }
        ensures limit { result ≤ FACT_LIMIT }
    {
        self.facts.len() as u32
    }

    /// The facts in order. It allocates nothing.
    pub fn as_slice(&self) -> &[Fact]
        ensures { result.now ≡ self.now }
    {
        self.facts.as_slice()
    }

    /// It allocates nothing.
    pub fn fact(&self, i: u32) -> &Fact
        requires { i < length self.now }
        ensures { slice_get self.now i ≡ Some result.now }
    {
        &self.facts[i as usize]
    }

    /// Adds a fact at the end. A refusal hands the fact back, and the trail is as before.
    pub fn add(&mut self, fact: Fact) -> Result<(), (Fact, NoMemory)>
        requires { length self.old < FACT_LIMIT }
        ensures { AddsFact fact self.old self.new result }
    {
        match self.facts.push(fact) {
            Ok(()) => Ok(()),
            Err(refused) => Err((refused.value, NoMemory)),
        }
    }

    /// Adds facts at the end. A refusal leaves the trail as before.
    pub fn append(&mut self, facts: List<Fact>) -> Result<(), NoMemory>
        requires { length self.old + length facts ≤ FACT_LIMIT }
        ensures { AppendsFacts facts self.old self.new result }
    {
        let mut facts = facts.into_vec();
        self.facts.append(&mut facts)?;
        Ok(())
    }

    /// Keeps only the first `len` facts. It allocates nothing.
    pub fn cut(&mut self, len: u32)
        requires { len ≤ length self.old }
        ensures { self.new ≡ take len self.old }
    {
        self.stable = self.tally.lower(self.stable, len);
        self.facts.truncate(len as usize);
    }

    /// Whether the facts are refuted as by `linear_closes`, in the trail's memory, where the sum of the leading terms is
    /// kept.
    pub fn is_refuted_by_sum(&mut self, terms: &List<Term>) -> Result<bool, NoMemory>
        requires { IsCombination self.old terms.now }
        ensures answer { IfOk result (TellsRefuted self.old (closes_by_sum self.old terms.now)) }
        ensures unchanged { self.new ≡ self.old }
    {
        self.tally.closes(
            self.alloc,
            self.facts.as_slice(),
            self.stable,
            terms.as_slice(),
        )
    }

    /// Whether the facts are refuted as by `residue_closes`, in the trail's memory.
    pub fn is_refuted_by_residue(
        &mut self,
        modulus: u32,
        terms: &List<Term>,
    ) -> Result<bool, NoMemory>
        requires combination { IsCombination self.old terms.now }
        requires modulus { 0 < modulus }
        ensures answer { IfOk result (TellsRefuted self.old (closes_by_residue self.old modulus terms.now)) }
        ensures unchanged { self.new ≡ self.old }
    {
        residue(
            &mut self.tally.rest,
            self.facts.as_slice(),
            modulus,
            terms.as_slice(),
        )
    }
}
