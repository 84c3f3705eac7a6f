//! The node of a leader that is present.

ghost use Rattle.std.specs.Prelude.{◌≡◌, ◌<◌, map, neg_ℤ, length, slice_index_or, true, false, IfOk};
ghost use Rattle.std.specs.List.{range_with_len};
ghost use Rattle.cert_base.specs.FactsAndCases.{states_of, indicator, differs};
ghost use Rattle.comp_remainder.specs.RemainderLeaf.{remainder_state_count};
ghost use Rattle.comp_remainder.specs.RemainderProof.{remainder_value, opened_by, remainder_value_node};
ghost use Rattle.comp_remainder.specs.RemainderProof.{remainder_wrong_node, remainder_leader_node, remainder_tree};

use crate::leaf::output;
use crate::modulus::Modulus;
use cert_base::Node;
use comp_trees::{MixParts, multipliers, terms, tree, weighed};
use pop_io::{List, NoMemory};
use pop_leaf::Leaf;
use std::alloc::Global;

/// What a state counts for.
fn value(modulus: Modulus, q: u16) -> i64
    ensures { result ≡ remainder_value modulus.number q }
{
    if q < modulus.number { i64::from(q) } else { 0 }
}

fn values(alloc: Global, modulus: Modulus) -> Result<Vec<i64>, NoMemory>
    ensures { IfOk result (λ values.
        values.items ≡ map (remainder_value modulus.number) (range_with_len 0 (remainder_state_count modulus.number))) }
{
    let values = (0..modulus.number + 2)
        .map(|q| value(modulus, q))
        .collect(alloc)?;
    Ok(values)
}

/// -1 for a state with another output.
fn sign(leaf: &Leaf, answer: bool, q: u16) -> i64
    requires { q < length leaf.now.states }
    ensures { result ≡ neg_ℤ (indicator (differs answer (slice_index_or leaf.now.outputs q false))) }
{
    if leaf.output(q) == answer { 0 } else { -1 }
}

fn signs(alloc: Global, leaf: &Leaf, answer: bool) -> Result<Vec<i64>, NoMemory>
    ensures { IfOk result (λ signs. signs.items
        ≡ map (λ q. neg_ℤ (indicator (differs answer (slice_index_or leaf.now.outputs q false))))
        (states_of leaf.now)) }
{
    let signs = (0..leaf.state_count())
        .map(|q| sign(leaf, answer, q))
        .collect(alloc)?;
    Ok(signs)
}

/// How often the opened predicate is added.
fn opened(answer: bool) -> i64
    ensures { result ≡ opened_by answer }
{
    if answer { -1 } else { 0 }
}

/// The leader's remainder doesn't agree with the opened predicate.
fn value_node(
    alloc: Global,
    leaf: &Leaf,
    modulus: Modulus,
    answer: bool,
    p: u16,
) -> Result<Node, NoMemory>
    requires leader { p < modulus.number }
    requires states { length leaf.now.states ≡ remainder_state_count modulus.number }
    ensures { IfOk result (λ node. node ≡ remainder_value_node leaf.now modulus.number answer p) }
{
    let values = values(alloc, modulus)?;
    let added = opened(answer);
    let alone = value(modulus, p);
    let parts = MixParts {
        flows: values.as_slice(),
        wrong: 0,
        opened: added,
        out: values.as_slice(),
        alone,
    };
    let mixed = multipliers(alloc, leaf, p, &parts)?;
    Ok(Node::Residue(u32::from(modulus.number), terms(alloc, mixed.as_slice())?))
}

/// No state with another output is left.
fn wrong_node(alloc: Global, leaf: &Leaf, answer: bool, p: u16) -> Result<Node, NoMemory>
    requires { p < length leaf.now.states }
    ensures { IfOk result (λ node. node ≡ remainder_wrong_node leaf.now answer p) }
{
    let none = vec![in alloc; 0i64; usize::from(leaf.state_count())]?;
    let signs = signs(alloc, leaf, answer)?;
    let parts = MixParts {
        flows: none.as_slice(),
        wrong: 1,
        opened: 0,
        out: signs.as_slice(),
        alone: 0,
    };
    let mixed = multipliers(alloc, leaf, p, &parts)?;
    weighed(alloc, mixed.as_slice())
}

fn leader_node(
    alloc: Global,
    leaf: &Leaf,
    modulus: Modulus,
    rest: u16,
    answer: bool,
    p: u16,
) -> Result<Node, NoMemory>
    requires leader { p < modulus.number }
    requires states { length leaf.now.states ≡ remainder_state_count modulus.number }
    ensures { IfOk result (λ node. node ≡ remainder_leader_node leaf.now modulus.number rest answer p) }
{
    if output(modulus, rest, p) == answer {
        wrong_node(alloc, leaf, answer, p)
    } else {
        value_node(alloc, leaf, modulus, answer, p)
    }
}

/// The nodes of all leaders, in order.
fn ends(
    alloc: Global,
    leaf: &Leaf,
    modulus: Modulus,
    rest: u16,
    answer: bool,
) -> Result<Vec<Node>, NoMemory>
    requires states { length leaf.now.states ≡ remainder_state_count modulus.number }
    ensures { IfOk result
        (λ nodes. nodes.items ≡ map (remainder_leader_node leaf.now modulus.number rest answer) (range_with_len 0 modulus.number)) }
{
    let mut nodes = Vec::new(alloc);
    for p in 0..modulus.number {
        nodes.push(leader_node(alloc, leaf, modulus, rest, answer, p)?)?;
    }
    Ok(nodes)
}

/// The tree for an answer.
fn leaf_tree(
    alloc: Global,
    leaf: &Leaf,
    modulus: Modulus,
    rest: u16,
    answer: bool,
) -> Result<List<Node>, NoMemory>
    requires states { length leaf.now.states ≡ remainder_state_count modulus.number }
    ensures { IfOk result (λ nodes. nodes ≡ remainder_tree leaf.now modulus.number rest answer) }
{
    let nodes = ends(alloc, leaf, modulus, rest, answer)?;
    tree(alloc, leaf, nodes)
}

/// The trees for true and for false.
pub(crate) fn both_trees(
    alloc: Global,
    leaf: &Leaf,
    modulus: Modulus,
    rest: u16,
) -> Result<(List<Node>, List<Node>), NoMemory>
    requires states { length leaf.now.states ≡ remainder_state_count modulus.number }
    ensures on_true { IfOk result (λ both. both.0 ≡ remainder_tree leaf.now modulus.number rest true) }
    ensures on_false { IfOk result (λ both. both.1 ≡ remainder_tree leaf.now modulus.number rest false) }
{
    let on_true = leaf_tree(alloc, leaf, modulus, rest, true)?;
    let on_false = leaf_tree(alloc, leaf, modulus, rest, false)?;
    Ok((on_true, on_false))
}
