//! The cases of a node.

ghost use Rattle.std.specs.Prelude.{◌≡◌, ◌<◌, ◌≤◌, nat_abs, nat_lt, All, IfOk, IfErr};
ghost use Rattle.std.specs.List.{list_all};
ghost use Rattle.pop_leaf.specs.LeafModel.{LeafModel};
ghost use Rattle.cert_base.specs.declared.fact.Fact.{Fact};
ghost use Rattle.cert_base.specs.declared.node.Node.TheVariants.{Linear, Residue, Split, Present, Twin, Trap, Siphon};
ghost use Rattle.cert_base.specs.declared.node.Node.TheVariants.{Open, First};
ghost use Rattle.cert_base.specs.Closes.{name_below};
ghost use Rattle.cert_base.specs.Ends.{HaveSamePlaces};
ghost use Rattle.cert_linear.specs.Conditions.{IsOrdered, AreMultipliers};
ghost use Rattle.cert_tree.specs.Format.{IsWithinFormat};
ghost use Rattle.cert_tree.specs.Refusals.{own_refusal};
ghost use Rattle.cert_tree.specs.Halts.{IsPassed, HaltsBy};

use crate::fault::TreeWhy;
use cert_base::{Fact, Node, Row, SIZE_LIMIT, Term, count_variables, open_cases, split_cases};
use cert_linear::Trail;
use cert_traps::{first_cases, present_cases, siphon_cases, trap_cases, twin_case};
use pop_io::{Failure, List};
use pop_leaf::Leaf;
use std::alloc::Global;

/// The cases of a node that speak of the end, in order; none at a node that refutes the facts. `dead` is the leaf that
/// has no step there.
pub(crate) fn node_cases(
    alloc: Global,
    leaf: &Leaf,
    dead: &Leaf,
    trail: &mut Trail,
    node: &Node,
) -> Result<List<List<Fact>>, Failure<TreeWhy>>
    requires places { HaveSamePlaces leaf.now dead.now }
    requires within { IsWithinFormat node.now }
    requires ordered { All IsOrdered trail.old }
    ensures passed { IfOk result (IsPassed leaf.now dead.now trail.old node.now) }
    ensures halts { IfErr result (HaltsBy (own_refusal leaf.now dead.now trail.old node.now)) }
    ensures unchanged { trail.new ≡ trail.old }
{
    match node {
        Node::Linear(terms) => linear_node(alloc, trail, terms),
        Node::Residue(modulus, terms) => residue_node(alloc, trail, *modulus, terms),
        Node::Split(row) => split_node(alloc, leaf, row),
        Node::Present(state) => present_node(alloc, leaf, dead, *state),
        Node::Twin(state) => twin_node(alloc, leaf, dead, *state),
        Node::Trap(set) => trap_node(alloc, leaf, set),
        Node::Siphon(set) => siphon_node(alloc, leaf, set),
        Node::Open(number) => open_node(alloc, trail, *number),
        Node::First(set) => first_node(alloc, leaf, set),
    }
}

/// A node that refutes the facts.
fn linear_node(
    alloc: Global,
    trail: &mut Trail,
    terms: &List<Term>,
) -> Result<List<List<Fact>>, Failure<TreeWhy>>
    requires multipliers { AreMultipliers terms.now }
    requires ordered { All IsOrdered trail.old }
    ensures passed { (leaf dead : LeafModel) → IfOk result (IsPassed leaf dead trail.old (Linear terms.now)) }
    ensures halts { (leaf dead : LeafModel) → IfErr result (HaltsBy (own_refusal leaf dead trail.old (Linear terms.now))) }
    ensures unchanged { trail.new ≡ trail.old }
{
    if !name_facts(terms.as_slice(), trail.len()) {
        return Err(Failure::Fault(TreeWhy::BadIndex));
    }
    if !trail.is_refuted_by_sum(terms)? {
        return Err(Failure::Fault(TreeWhy::NotClosed));
    }
    Ok(List::from_vec(Vec::new(alloc)))
}

fn residue_node(
    alloc: Global,
    trail: &mut Trail,
    modulus: u32,
    terms: &List<Term>,
) -> Result<List<List<Fact>>, Failure<TreeWhy>>
    requires modulus { 2 ≤ modulus }
    requires multipliers { AreMultipliers terms.now }
    requires ordered { All IsOrdered trail.old }
    ensures passed { (leaf dead : LeafModel) → IfOk result (IsPassed leaf dead trail.old (Residue modulus terms.now)) }
    ensures halts { (leaf dead : LeafModel)
        → IfErr result (HaltsBy (own_refusal leaf dead trail.old (Residue modulus terms.now))) }
    ensures unchanged { trail.new ≡ trail.old }
{
    if !name_facts(terms.as_slice(), trail.len()) {
        return Err(Failure::Fault(TreeWhy::BadIndex));
    }
    if !trail.is_refuted_by_residue(modulus, terms)? {
        return Err(Failure::Fault(TreeWhy::NotClosed));
    }
    Ok(List::from_vec(Vec::new(alloc)))
}

fn split_node(alloc: Global, leaf: &Leaf, row: &Row) -> Result<List<List<Fact>>, Failure<TreeWhy>>
    requires coefs { All (λ t. nat_abs t.by ≤ SIZE_LIMIT) row.now.terms }
    requires constant { nat_abs row.now.constant ≤ SIZE_LIMIT }
    ensures passed { (dead : LeafModel) (facts : List Fact) → IfOk result (IsPassed leaf.now dead facts (Split row.now)) }
    ensures halts { (dead : LeafModel) (facts : List Fact)
        → IfErr result (HaltsBy (own_refusal leaf.now dead facts (Split row.now))) }
{
    if !name_facts(row.terms.as_slice(), count_variables(leaf)) {
        return Err(Failure::Fault(TreeWhy::BadIndex));
    }
    Ok(split_cases(alloc, row)?)
}

fn present_node(
    alloc: Global,
    leaf: &Leaf,
    dead: &Leaf,
    state: u16,
) -> Result<List<List<Fact>>, Failure<TreeWhy>>
    requires places { HaveSamePlaces leaf.now dead.now }
    ensures passed { (facts : List Fact) → IfOk result (IsPassed leaf.now dead.now facts (Present state)) }
    ensures halts { (facts : List Fact) → IfErr result (HaltsBy (own_refusal leaf.now dead.now facts (Present state))) }
{
    if leaf.state_count() <= state {
        return Err(Failure::Fault(TreeWhy::BadIndex));
    }
    Ok(present_cases(alloc, dead, state)?)
}

fn twin_node(
    alloc: Global,
    leaf: &Leaf,
    dead: &Leaf,
    state: u16,
) -> Result<List<List<Fact>>, Failure<TreeWhy>>
    requires places { HaveSamePlaces leaf.now dead.now }
    ensures passed { (facts : List Fact) → IfOk result (IsPassed leaf.now dead.now facts (Twin state)) }
    ensures halts { (facts : List Fact) → IfErr result (HaltsBy (own_refusal leaf.now dead.now facts (Twin state))) }
{
    if leaf.state_count() <= state {
        return Err(Failure::Fault(TreeWhy::BadIndex));
    }
    let Some(own) = twin_case(alloc, dead, state)? else {
        return Err(Failure::Fault(TreeWhy::NoTwin));
    };
    let mut cases = Vec::new(alloc);
    cases.push(own)?;
    Ok(List::from_vec(cases))
}

fn trap_node(
    alloc: Global,
    leaf: &Leaf,
    set: &List<u16>,
) -> Result<List<List<Fact>>, Failure<TreeWhy>>
    ensures passed { (dead : LeafModel) (facts : List Fact) → IfOk result (IsPassed leaf.now dead facts (Trap set.now)) }
    ensures halts { (dead : LeafModel) (facts : List Fact)
        → IfErr result (HaltsBy (own_refusal leaf.now dead facts (Trap set.now))) }
{
    if !name_states(set.as_slice(), leaf.state_count()) {
        return Err(Failure::Fault(TreeWhy::BadIndex));
    }
    Ok(trap_cases(alloc, leaf, set)?)
}

fn siphon_node(
    alloc: Global,
    leaf: &Leaf,
    set: &List<u16>,
) -> Result<List<List<Fact>>, Failure<TreeWhy>>
    ensures passed { (dead : LeafModel) (facts : List Fact) → IfOk result (IsPassed leaf.now dead facts (Siphon set.now)) }
    ensures halts { (dead : LeafModel) (facts : List Fact)
        → IfErr result (HaltsBy (own_refusal leaf.now dead facts (Siphon set.now))) }
{
    if !name_states(set.as_slice(), leaf.state_count()) {
        return Err(Failure::Fault(TreeWhy::BadIndex));
    }
    Ok(siphon_cases(alloc, leaf, set)?)
}

fn first_node(
    alloc: Global,
    leaf: &Leaf,
    set: &List<u16>,
) -> Result<List<List<Fact>>, Failure<TreeWhy>>
    ensures passed { (dead : LeafModel) (facts : List Fact)
        → IfOk result (IsPassed leaf.now dead facts (First set.now)) }
    ensures halts { (dead : LeafModel) (facts : List Fact)
        → IfErr result (HaltsBy (own_refusal leaf.now dead facts (First set.now))) }
{
    if !name_states(set.as_slice(), leaf.state_count()) {
        return Err(Failure::Fault(TreeWhy::BadIndex));
    }
    Ok(first_cases(alloc, leaf, set)?)
}

fn open_node(
    alloc: Global,
    trail: &Trail,
    number: u32,
) -> Result<List<List<Fact>>, Failure<TreeWhy>>
    ensures passed { (leaf dead : LeafModel) → IfOk result (IsPassed leaf dead trail.now (Open number)) }
    ensures halts { (leaf dead : LeafModel) → IfErr result (HaltsBy (own_refusal leaf dead trail.now (Open number))) }
{
    if trail.len() <= number {
        return Err(Failure::Fault(TreeWhy::BadIndex));
    }
    match trail.fact(number) {
        Fact::Holds(pred, value) => Ok(open_cases(alloc, pred, *value)?),
        _ => Err(Failure::Fault(TreeWhy::NotOpen)),
    }
}

/// Whether all terms name a number below this one.
fn name_facts(terms: &[Term], end: u32) -> bool
    ensures { result ≡ name_below end terms.now }
{
    terms.iter().all(|term| term.at < end)
}

/// Whether all states have a number below this one.
fn name_states(states: &[u16], end: u16) -> bool
    ensures { result ≡ list_all (λ q. nat_lt q end) states.now }
{
    states.iter().all(|q| *q < end)
}
