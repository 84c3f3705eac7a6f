//! Facts that speak of the inputs alone.

ghost use Rattle.std.specs.Prelude.{◌≡◌, ◌++◌, filter, OnOk};
ghost use Rattle.cert_base.specs.FactsAndCases.{has_inputs_alone, is_about_inputs};
ghost use Rattle.cert_traps.specs.Facts.{fact_if};

use cert_base::{Fact, Row};
use pop_io::NoMemory;
use pop_leaf::Leaf;
use std::alloc::Global;

/// Adds those of the facts that speak of the inputs alone.
pub(crate) fn keep_about_inputs(
    alloc: Global,
    kept: &mut Vec<Fact>,
    leaf: &Leaf,
    facts: &[Fact],
) -> Result<(), NoMemory>
    ensures { OnOk result (kept.new.items ≡ kept.old.items ++ filter (is_about_inputs leaf.now) facts.now) }
{
    for fact in facts {
        keep(alloc, kept, leaf, fact)?;
    }
    Ok(())
}

/// Adds the fact, if it speaks of the inputs alone.
fn keep(alloc: Global, kept: &mut Vec<Fact>, leaf: &Leaf, fact: &Fact) -> Result<(), NoMemory>
    ensures { OnOk result (kept.new.items ≡ kept.old.items ++ fact_if fact.now (is_about_inputs leaf.now fact.now)) }
{
    if names_inputs(leaf, fact) {
        kept.push(fact.copy(alloc)?)?;
    }
    Ok(())
}

/// Whether the fact speaks of the inputs alone.
fn names_inputs(leaf: &Leaf, fact: &Fact) -> bool
    ensures { result ≡ is_about_inputs leaf.now fact.now }
{
    match fact {
        Fact::Ge(row) => is_over_inputs(leaf, row),
        Fact::Eq(row) => is_over_inputs(leaf, row),
        Fact::Cong(row, _modulus) => is_over_inputs(leaf, row),
        Fact::NotCong(row, _modulus) => is_over_inputs(leaf, row),
        Fact::Holds(pred, _value) => pred.vars() <= leaf.input_count(),
    }
}

fn is_over_inputs(leaf: &Leaf, row: &Row) -> bool
    ensures { result ≡ has_inputs_alone leaf.now row.now }
{
    let count = u32::from(leaf.input_count());
    row.terms.as_slice().iter().all(|term| term.at < count)
}
