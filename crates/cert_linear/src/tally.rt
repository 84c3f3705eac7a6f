//! A sum of facts in two parts, one of which is kept.

ghost use Rattle.std.specs.Prelude.{◌≡◌, ◌≤◌, ◌<◌, ℕ, List, [], length, not, All, IfOk, IsTrue};
ghost use Rattle.cert_base.specs.ClosingTests.{closes_by_sum};
ghost use Rattle.cert_linear.specs.Conditions.{IsOrdered, AreMultipliers, AreNamed};
ghost use Rattle.cert_base.specs.declared.fact.Fact.{Fact};
ghost use Rattle.std.specs.List.{filter};
ghost use Rattle.cert_linear.specs.Kept.{IsKept, Keeps, Makes, leads};
ghost use Rattle.cert_linear.specs.Sums.{IsTidy};

use crate::closing::sum_up;
use crate::sum::Sum;
use cert_base::{Fact, Term};
use pop_io::NoMemory;
use std::alloc::Global;

/// The sums of the leading terms of a combination and of its other terms. Nodes often share their leading terms, so
/// their sum is kept, with its terms.
#[derive(Drop)]
pub(crate) struct Tally {
    kept: Vec<Term>,
    lead: Sum,
    /// The variables whose coefficient in the lead is above 0.
    positive: Vec<u32>,
    /// It is used for other sums too.
    pub(crate) rest: Sum,
}

impl Tally {
    pub(crate) fn new(alloc: Global) -> Tally
        ensures { (stable : ℕ) (facts : List Fact) → IsKept stable facts result }
    {
        Tally {
            kept: Vec::new(alloc),
            lead: Sum::new(alloc),
            positive: Vec::new(alloc),
            rest: Sum::new(alloc),
        }
    }

    /// Keeps no sum.
    pub(crate) fn forget(&mut self)
        requires { IsTidy self.old.lead × IsTidy self.old.rest }
        ensures kept { (stable : ℕ) (facts : List Fact) → IsKept stable facts self.new }
        ensures none { self.new.kept.items ≡ [] }
        ensures tidy { IsTidy self.new.lead × IsTidy self.new.rest }
    {
        self.kept.truncate(0);
        self.lead.clear();
        self.positive.truncate(0);
    }

    /// Keeps the sum only if the facts below `stable` are among the first `len`. Returns the new `stable`.
    pub(crate) fn lower(&mut self, stable: u32, len: u32) -> u32
        requires { IsTidy self.old.lead × IsTidy self.old.rest }
        ensures within { (result ≤ stable) × (result ≤ len) }
        ensures kept { (facts : List Fact) → IsKept stable facts self.old → IsKept result facts self.new }
    {
        if stable <= len {
            return stable;
        }
        self.forget();
        len
    }

    /// Whether the sum of the named facts refutes them. The terms that name facts below `stable` are leading.
    pub(crate) fn closes(
        &mut self,
        alloc: Global,
        facts: &[Fact],
        stable: u32,
        terms: &[Term],
    ) -> Result<bool, NoMemory>
        requires kept { IsKept stable facts.now self.old }
        requires named { AreNamed (length facts.now) terms.now }
        requires multipliers { AreMultipliers terms.now }
        requires ordered { All IsOrdered facts.now }
        ensures closes { IfOk result (λ closes. closes ≡ closes_by_sum facts.now terms.now) }
        ensures kept { IsKept stable facts.now self.new }
    {
        let lead = leading(alloc, terms, stable)?;
        if !self.keep(facts, stable, lead.as_slice())? {
            return Ok(false);
        }
        let rest = following(alloc, terms, stable)?;
        if !sum_up(&mut self.rest, facts, rest.as_slice(), None)? {
            return Ok(false);
        }
        let positive = self.positive.as_slice();
        Ok(self.rest.is_negative_with(&self.lead, positive))
    }

    /// Keeps the sum of these terms, unless one may not have its multiplier.
    fn keep(&mut self, facts: &[Fact], stable: u32, lead: &[Term]) -> Result<bool, NoMemory>
        requires kept { IsKept stable facts.now self.old }
        requires stable { All (λ t. t.at < stable) lead.now }
        requires named { AreNamed (length facts.now) lead.now }
        requires multipliers { AreMultipliers lead.now }
        requires ordered { All IsOrdered facts.now }
        ensures keeps { IfOk result (Keeps facts.now lead.now self.new) }
        ensures kept { IsKept stable facts.now self.new }
    {
        if are_same(self.kept.as_slice(), lead) {
            return Ok(true);
        }
        self.forget();
        match self.make(facts, lead) {
            Ok(true) => Ok(true),
            not_made => {
                self.forget();
                not_made
            }
        }
    }

    /// Sums up these terms as the lead and keeps them, unless one may not have its multiplier.
    fn make(&mut self, facts: &[Fact], lead: &[Term]) -> Result<bool, NoMemory>
        requires none { self.old.kept.items ≡ [] }
        requires lead { IsTidy self.old.lead }
        requires rest { IsTidy self.old.rest }
        requires named { AreNamed (length facts.now) lead.now }
        requires multipliers { AreMultipliers lead.now }
        requires ordered { All IsOrdered facts.now }
        ensures made { IfOk result (Makes facts.now lead.now self.new) }
        ensures lead { IsTidy self.new.lead }
        ensures rest { IsTidy self.new.rest }
    {
        if !sum_up(&mut self.lead, facts, lead, None)? {
            return Ok(false);
        }
        self.lead.list_positive(&mut self.positive)?;
        self.kept.extend_from_slice(lead)?;
        Ok(true)
    }
}

/// The terms that name facts below a number.
fn leading(alloc: Global, terms: &[Term], stable: u32) -> Result<Vec<Term>, NoMemory>
    ensures { IfOk result (λ lead. lead.items ≡ filter (leads stable) terms.now) }
{
    let lead = terms
        .iter()
        .copied()
        .filter(|term| term.at < stable)
        .collect(alloc)?;
    Ok(lead)
}

/// All other terms.
fn following(alloc: Global, terms: &[Term], stable: u32) -> Result<Vec<Term>, NoMemory>
    ensures { IfOk result (λ rest. rest.items ≡ filter (λ t. not (leads stable t)) terms.now) }
{
    let rest = terms
        .iter()
        .copied()
        .filter(|term| term.at >= stable)
        .collect(alloc)?;
    Ok(rest)
}

/// Whether two lists of terms are the same.
fn are_same(terms: &[Term], other: &[Term]) -> bool
    ensures { IsTrue result → terms.now ≡ other.now }
{
    terms == other
}
