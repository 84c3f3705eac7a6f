//! The closing tests over a trail.

ghost use Rattle.std.specs.Prelude.{◌≡◌, ◌+◌, length, All, IfSome};
ghost use Rattle.cert_linear.specs.Conditions.{AreMultipliers, AreNamed, IsOrdered};

use crate::sums::list;
use cert_base::{Fact, Row, Term, base_facts};
use cert_linear::Trail;
use pop_io::List;
use pop_net::{Leaf, Net};
use pres_ast::Pred;
use pres_read::read_pred;
use sample_nets::flock;
use std::alloc::Global;

/// The base facts of a leaf, for a predicate that is true.
fn base(alloc: Global, leaf: &Leaf, pred: &Pred) -> Option<List<Fact>>
    ensures { IfSome result (All IsOrdered) }
{
    if pred.vars() != leaf.input_count() {
        return None;
    }
    match base_facts(alloc, leaf, pred, true) {
        Ok(facts) => Some(facts),
        Err(_) => None,
    }
}

/// Those of the first leaf, for `-x < 0`.
fn first_base(alloc: Global, net: &Net) -> Option<List<Fact>>
    ensures { IfSome result (All IsOrdered) }
{
    if net.leaf_count() == 0 {
        return None;
    }
    let pred = read_pred(alloc, b"-x < 0", net.var_names()).ok()?;
    base(alloc, net.leaf(0), &pred)
}

/// The number of facts of the trail.
const COUNT: usize = 6;

/// All facts of the trail but the last.
fn facts(alloc: Global) -> Option<List<Fact>>
    ensures ordered { IfSome result (All IsOrdered) }
    ensures count { IfSome result (λ facts. length facts + 1 ≡ COUNT) }
{
    let net = flock(alloc)?;
    let facts = first_base(alloc, &net)?;
    if facts.as_slice().len() != COUNT - 1 {
        return None;
    }
    Some(facts)
}

/// No agent is left in the first state, whose count has the number 1.
fn none_left(alloc: Global) -> Option<Fact>
    ensures { IfSome result IsOrdered }
{
    let terms = Vec::from_slice(alloc, &[Term { at: 1, by: 1 }]).ok()?;
    Some(Fact::Eq(Row {
        terms: List::from_vec(terms),
        constant: 0,
    }))
}

fn trail(alloc: Global) -> Option<Trail>
    ensures ordered { IfSome result (All IsOrdered) }
    ensures count { IfSome result (λ trail. length trail ≡ COUNT) }
{
    let mut trail = Trail::new(alloc, facts(alloc)?);
    match trail.add(none_left(alloc)?) {
        Ok(()) => Some(trail),
        Err(_) => None,
    }
}

/// Whether facts times their multipliers refute those of a trail, by residues or, with the modulus 0, by their sum.
fn closes_on(trail: &mut Trail, modulus: u32, terms: &List<Term>) -> Option<bool>
    requires ordered { All IsOrdered trail.old }
    requires count { length trail.old ≡ COUNT }
    requires named { AreNamed COUNT terms.now }
    requires multipliers { AreMultipliers terms.now }
{
    if modulus == 0 {
        trail.is_refuted_by_sum(terms).ok()
    } else {
        trail.is_refuted_by_residue(modulus, terms).ok()
    }
}

fn closes(alloc: Global, modulus: u32, terms: &[Term]) -> Option<bool>
    requires named { AreNamed COUNT terms.now }
    requires multipliers { AreMultipliers terms.now }
{
    let terms = list(alloc, terms)?;
    let mut trail = trail(alloc)?;
    closes_on(&mut trail, modulus, &terms)
}

/// The constant of the last fact, which is an equation, and how many facts are left after a cut.
fn seen(alloc: Global) -> Option<(i64, u32)> {
    let mut trail = trail(alloc)?;
    let Fact::Eq(row) = trail.fact(COUNT as u32 - 1) else {
        return None;
    };
    let constant = row.constant;
    trail.cut(COUNT as u32 - 1);
    Some((constant, trail.len()))
}

#[test]
fn facts_of_a_trail(rt: HostRuntime) {
    assert!(rt; seen(rt.alloc()) == Some((0, 5)));
}

#[test]
fn what_refutes_a_trail(rt: HostRuntime) {
    let some = Term { at: 4, by: 1 };
    let none = Term { at: 5, by: -1 };
    assert!(rt; closes(rt.alloc(), 0, &[some, none]) == Some(true));
    assert!(rt; closes(rt.alloc(), 2, &[Term { at: 5, by: 2 }]) == Some(false));
}
