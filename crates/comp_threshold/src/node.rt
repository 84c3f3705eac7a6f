//! The node of a leader that is present.

ghost use Rattle.std.specs.Prelude.{◌≡◌, ◌<◌, List, map, true, false, IfOk};
ghost use Rattle.std.specs.List.{range_with_len};
ghost use Rattle.comp_threshold.specs.ThresholdLeaf.{span_of, threshold_state_count};
ghost use Rattle.comp_threshold.specs.ThresholdProof.{signed_value, threshold_leader_node, wrong_sign};
ghost use Rattle.comp_threshold.specs.ThresholdProof.{threshold_value_node, threshold_wrong_node, threshold_tree};

use crate::bounded::BoundedLeaf;
use crate::building::output;
use crate::narrow::Width;
use crate::values::{place_in, span};
use cert_base::Node;
use comp_trees::{MixParts, multipliers, tree, weighed};
use pop_io::{List, NoMemory};
use std::alloc::Global;

/// The value of a state, negated in the tree for false.
fn signed(width: Width, b: bool, q: u16) -> i64
    ensures { result ≡ signed_value b width.number q }
{
    let value = i64::from(place_in(width, q)) - i64::from(width.number);
    if b { value } else { -value }
}

/// The values of all states.
fn values(alloc: Global, width: Width, b: bool) -> Result<Vec<i64>, NoMemory>
    ensures { IfOk result (λ values.
        values.items ≡ map (signed_value b width.number) (range_with_len 0 (threshold_state_count width.number))) }
{
    let values = (0..3 * span(width))
        .map(|q| signed(width, b, q))
        .collect(alloc)?;
    Ok(values)
}

/// -1 for a state with another output than b.
fn sign(width: Width, t: u16, b: bool, q: u16) -> i64
    ensures { result ≡ wrong_sign width.number t b q }
{
    if output(width, t, q) == b { 0 } else { -1 }
}

fn signs(alloc: Global, width: Width, t: u16, b: bool) -> Result<Vec<i64>, NoMemory>
    ensures { IfOk result (λ signs.
        signs.items ≡ map (wrong_sign width.number t b) (range_with_len 0 (threshold_state_count width.number))) }
{
    let signs = (0..3 * span(width))
        .map(|q| sign(width, t, b, q))
        .collect(alloc)?;
    Ok(signs)
}

/// The leader's value doesn't agree with the opened fact.
fn value_node(alloc: Global, bounded: &BoundedLeaf<'_>, b: bool, p: u16) -> Result<Node, NoMemory>
    requires leader { p < span_of bounded.now.width.number }
    ensures { IfOk result (λ node. node ≡ threshold_value_node bounded.now.leaf.now bounded.now.width.number b p) }
{
    let values = values(alloc, bounded.width, b)?;
    let alone = signed(bounded.width, b, p);
    let parts = MixParts {
        flows: values.as_slice(),
        wrong: 0,
        opened: 1,
        out: values.as_slice(),
        alone,
    };
    let multipliers = multipliers(alloc, bounded.leaf, p, &parts)?;
    weighed(alloc, multipliers.as_slice())
}

/// All states with a wrong output are ruled out.
fn wrong_node(alloc: Global, bounded: &BoundedLeaf<'_>, b: bool, p: u16) -> Result<Node, NoMemory>
    requires leader { p < span_of bounded.now.width.number }
    ensures { IfOk result (λ node. node ≡ threshold_wrong_node bounded.now.leaf.now b p) }
{
    let none = vec![in alloc; 0i64; usize::from(3 * span(bounded.width))]?;
    let signs = signs(alloc, bounded.width, bounded.bound, b)?;
    let parts = MixParts {
        flows: none.as_slice(),
        wrong: 1,
        opened: 0,
        out: signs.as_slice(),
        alone: 0,
    };
    let multipliers = multipliers(alloc, bounded.leaf, p, &parts)?;
    weighed(alloc, multipliers.as_slice())
}

fn leader_node(alloc: Global, bounded: &BoundedLeaf<'_>, b: bool, p: u16) -> Result<Node, NoMemory>
    requires leader { p < span_of bounded.now.width.number }
    ensures { IfOk result (λ node.
        node ≡ threshold_leader_node bounded.now.leaf.now bounded.now.width.number bounded.now.bound b p) }
{
    if output(bounded.width, bounded.bound, p) == b {
        wrong_node(alloc, bounded, b, p)
    } else {
        value_node(alloc, bounded, b, p)
    }
}

/// The nodes of all leaders, in order.
fn ends(alloc: Global, bounded: &BoundedLeaf<'_>, b: bool) -> Result<Vec<Node>, NoMemory>
    ensures { IfOk result (λ nodes.
        nodes.items ≡ map (threshold_leader_node bounded.now.leaf.now bounded.now.width.number bounded.now.bound b)
        (range_with_len 0 (span_of bounded.now.width.number))) }
{
    let mut nodes = Vec::new(alloc);
    for p in 0..span(bounded.width) {
        nodes.push(leader_node(alloc, bounded, b, p)?)?;
    }
    Ok(nodes)
}

/// The tree for b.
fn leaf_tree(alloc: Global, bounded: &BoundedLeaf<'_>, b: bool) -> Result<List<Node>, NoMemory>
    ensures { IfOk result (λ nodes.
        nodes ≡ threshold_tree bounded.now.leaf.now bounded.now.width.number bounded.now.bound b) }
{
    let nodes = ends(alloc, bounded, b)?;
    tree(alloc, bounded.leaf, nodes)
}

/// The trees for true and for false.
pub(crate) fn both_trees(
    alloc: Global,
    bounded: &BoundedLeaf<'_>,
) -> Result<(List<Node>, List<Node>), NoMemory>
    ensures on_true { IfOk result (λ both.
        both.0 ≡ threshold_tree bounded.now.leaf.now bounded.now.width.number bounded.now.bound true) }
    ensures on_false { IfOk result (λ both.
        both.1 ≡ threshold_tree bounded.now.leaf.now bounded.now.width.number bounded.now.bound false) }
{
    let on_true = leaf_tree(alloc, bounded, true)?;
    let on_false = leaf_tree(alloc, bounded, false)?;
    Ok((on_true, on_false))
}
