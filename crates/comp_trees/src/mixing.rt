//! The multipliers of a leader's node.

ghost use Rattle.std.specs.Prelude.{◌≡◌, ◌+◌, ◌∷◌, ◌++◌, [], pos, map, All, slice_index_or, ◌<◌, ◌≤◌, length, IfOk};
ghost use Rattle.cert_base.specs.Rows.{terms_from};
ghost use Rattle.comp_trees.specs.LeaderTree.{weighed_node, mix_over, mix_by, mix_of_leader, company_of, mix_above};

use crate::others::company;
use cert_base::{Node, Row, Term};
use pop_io::{List, NoMemory};
use pop_leaf::Leaf;
use std::alloc::Global;

/// The most multipliers of a node: a term names its fact by a `u32`.
pub const MULTIPLIER_LIMIT: usize = 1 << 32;

/// The multipliers of a leader's node: of the states' flow facts, of the wrong output, of the opened fact, of the
/// states that are ruled out, and of the fact that the leader is alone.
#[derive(Clone, Copy)]
pub struct MixParts<'a> {
    pub flows: &'a [i64],
    pub wrong: i64,
    pub opened: i64,
    pub out: &'a [i64],
    pub alone: i64,
}

/// The facts that are named by the multipliers other than 0.
pub fn terms(alloc: Global, multipliers: &[i64]) -> Result<List<Term>, NoMemory>
    requires { length multipliers.now ≤ MULTIPLIER_LIMIT }
    ensures { IfOk result (λ terms. terms ≡ terms_from 0 multipliers.now) }
{
    let row = Row::dense(alloc, 0, multipliers, 0)?;
    Ok(row.terms)
}

/// The node that these multipliers close.
pub fn weighed(alloc: Global, multipliers: &[i64]) -> Result<Node, NoMemory>
    requires { length multipliers.now ≤ MULTIPLIER_LIMIT }
    ensures { IfOk result (λ node. node ≡ weighed_node multipliers.now) }
{
    Ok(Node::Linear(terms(alloc, multipliers)?))
}

/// Those of the base facts and the opened fact.
fn front(alloc: Global, flows: &[i64], wrong: i64, opened: i64) -> Result<Vec<i64>, NoMemory>
    ensures front { IfOk result (λ multipliers.
        multipliers.items ≡ (flows.now ++ pos 0 ∷ pos 0 ∷ wrong ∷ []) ++ opened ∷ []) }
    ensures len { IfOk result (λ multipliers. length multipliers.items ≡ length flows.now + 4) }
{
    let mut multipliers = Vec::from_slice(alloc, flows)?;
    multipliers.extend_from_slice(&[0, 0, wrong])?;
    multipliers.extend_from_slice(&[opened])?;
    Ok(multipliers)
}

/// The multipliers of the base facts, of the opened predicate, and of the facts after it.
pub fn mix(
    alloc: Global,
    flows: &[i64],
    wrong: i64,
    opened: i64,
    own: &[i64],
) -> Result<Vec<i64>, NoMemory>
    ensures mix { IfOk result (λ multipliers. multipliers.items ≡ mix_over flows.now wrong opened own.now) }
    ensures len { IfOk result (λ multipliers. length multipliers.items ≡ length flows.now + 4 + length own.now) }
{
    let mut multipliers = front(alloc, flows, wrong, opened)?;
    multipliers.extend_from_slice(own)?;
    Ok(multipliers)
}

/// The node that they close.
pub fn mixed(
    alloc: Global,
    flows: &[i64],
    wrong: i64,
    opened: i64,
    own: &[i64],
) -> Result<Node, NoMemory>
    requires { length flows.now + 4 + length own.now ≤ MULTIPLIER_LIMIT }
    ensures { IfOk result (λ node. node ≡ weighed_node (mix_over flows.now wrong opened own.now)) }
{
    let multipliers = mix(alloc, flows, wrong, opened, own)?;
    weighed(alloc, multipliers.as_slice())
}

/// The multipliers of the facts above the node of a leader that is present.
pub fn multipliers(
    alloc: Global,
    leaf: &Leaf,
    leader: u16,
    parts: &MixParts<'_>,
) -> Result<Vec<i64>, NoMemory>
    requires leader { leader < length leaf.now.states }
    requires flows { length parts.now.flows.now ≡ length leaf.now.states }
    requires out { length parts.now.out.now ≡ length leaf.now.states }
    ensures mix { IfOk result (λ multipliers. multipliers.items
        ≡ mix_of_leader leaf.now (company_of leaf.now leader)
        (mix_by parts.now.flows.now parts.now.wrong parts.now.opened parts.now.out.now parts.now.alone) leader) }
    ensures short { IfOk result (λ multipliers. length multipliers.items ≤ MULTIPLIER_LIMIT) }
{
    // What the invariant says is known from here on.
    let _formed = leaf.state_count();
    let mut multipliers = above(alloc, leader, parts.flows, parts.wrong, parts.opened)?;
    let own = own(alloc, leaf, leader, parts.out, parts.alone)?;
    multipliers.extend_from_slice(own.as_slice())?;
    Ok(multipliers)
}

/// Those of the leader's own facts.
fn own(
    alloc: Global,
    leaf: &Leaf,
    leader: u16,
    out: &[i64],
    alone: i64,
) -> Result<Vec<i64>, NoMemory>
    requires leader { leader < length leaf.now.states }
    requires out { length out.now ≡ length leaf.now.states }
    ensures { IfOk result (λ multipliers. multipliers.items
        ≡ (pos 0 ∷ map (λ q. slice_index_or out.now q (pos 0)) (company_of leaf.now leader)) ++ alone ∷ []) }
{
    let states = company(alloc, leaf, leader)?;
    let mut multipliers = Vec::from_slice(alloc, &[0i64])?;
    let picked = picked(alloc, out, states.as_slice())?;
    multipliers.extend_from_slice(picked.as_slice())?;
    multipliers.extend_from_slice(&[alone])?;
    Ok(multipliers)
}

/// The multipliers of these states.
pub fn picked(alloc: Global, out: &[i64], states: &[u16]) -> Result<Vec<i64>, NoMemory>
    requires { All (λ q. q < length out.now) states.now }
    ensures { IfOk result (λ multipliers. multipliers.items ≡ map (λ q. slice_index_or out.now q (pos 0)) states.now) }
{
    let mut multipliers = Vec::new(alloc);
    for q in states {
        multipliers.push(out[usize::from(*q)])?;
    }
    Ok(multipliers)
}

/// Those of the base facts, the opened fact, the trap's and the earlier leaders'.
fn above(
    alloc: Global,
    leader: u16,
    flows: &[i64],
    wrong: i64,
    opened: i64,
) -> Result<Vec<i64>, NoMemory>
    ensures { IfOk result (λ multipliers. multipliers.items ≡ mix_above flows.now wrong opened leader) }
{
    let mut multipliers = front(alloc, flows, wrong, opened)?;
    multipliers.extend_from_slice(&[0])?;
    let none = vec![in alloc; 0i64; usize::from(leader)]?;
    multipliers.extend_from_slice(none.as_slice())?;
    Ok(multipliers)
}
