//! The closing tests by themselves.

ghost use Rattle.std.specs.Prelude.{◌≡◌, length, All, IfOk, IfSome};
ghost use Rattle.cert_base.specs.declared.fact.Fact.TheVariants.{Ge};
ghost use Rattle.cert_linear.specs.Conditions.{AreMultipliers, AreNamed, IsOrdered};

use cert_base::{Fact, Row, Term};
use cert_linear::{linear_closes, residue_closes};
use pop_io::List;
use std::alloc::{AllocError, Global};

/// A row of one variable.
fn row(alloc: Global, by: i64, constant: i64) -> Result<Row, AllocError>
    ensures { IfOk result (λ row. IsOrdered (Ge row)) }
{
    let terms = [Term { at: 0, by }];
    Ok(Row {
        terms: List::from_vec(Vec::from_slice(alloc, &terms)?),
        constant,
    })
}

/// The kinds are `>` and `=`.
fn fact(alloc: Global, kind: u8, by: i64, constant: i64) -> Result<Fact, AllocError>
    ensures { IfOk result IsOrdered }
{
    let row = row(alloc, by, constant)?;
    Ok(match kind {
        b'>' => Fact::Ge(row),
        _ => Fact::Eq(row),
    })
}

/// The number of facts of the table.
const COUNT: usize = 3;

/// The variable is at least 1, it is 0, and twice it is -1.
const FACTS: [(u8, i64, i64); COUNT] = [(b'>', 1, -1), (b'=', 1, 0), (b'=', 2, 1)];

fn facts(alloc: Global) -> Result<List<Fact>, AllocError>
    ensures ordered { IfOk result (All IsOrdered) }
    ensures count { IfOk result (λ facts. length facts ≡ COUNT) }
{
    let mut facts = Vec::new(alloc);
    for (kind, by, constant) in FACTS {
        facts.push(fact(alloc, kind, by, constant)?)?;
    }
    // Each row is a fact, so the count is always right.
    if facts.len() != COUNT {
        return Err(AllocError);
    }
    Ok(List::from_vec(facts))
}

pub(crate) fn list(alloc: Global, terms: &[Term]) -> Option<List<Term>>
    ensures { IfSome result (λ list. list ≡ terms.now) }
{
    Some(List::from_vec(Vec::from_slice(alloc, terms).ok()?))
}

/// Whether facts times their multipliers refute the facts, by residues or, with the modulus 0, by their sum.
fn closes_by(alloc: Global, modulus: u32, terms: &List<Term>) -> Option<bool>
    requires named { AreNamed COUNT terms.now }
    requires multipliers { AreMultipliers terms.now }
{
    let facts = facts(alloc).ok()?;
    if modulus == 0 {
        linear_closes(alloc, &facts, terms).ok()
    } else {
        residue_closes(alloc, &facts, modulus, terms).ok()
    }
}

fn closes(alloc: Global, modulus: u32, terms: &[Term]) -> Option<bool>
    requires named { AreNamed COUNT terms.now }
    requires multipliers { AreMultipliers terms.now }
{
    let terms = list(alloc, terms)?;
    closes_by(alloc, modulus, &terms)
}

#[test]
fn sums_that_refute(rt: HostRuntime) {
    let least = Term { at: 0, by: 1 };
    let none = Term { at: 1, by: -1 };
    assert!(rt; closes(rt.alloc(), 0, &[least, none]) == Some(true));
    assert!(rt; closes(rt.alloc(), 0, &[least]) == Some(false));
}

#[test]
fn residues_that_refute(rt: HostRuntime) {
    assert!(rt; closes(rt.alloc(), 2, &[Term { at: 2, by: 1 }]) == Some(true));
    assert!(rt; closes(rt.alloc(), 2, &[Term { at: 2, by: 2 }]) == Some(false));
}
