//! Both trees of a leaf.

ghost use Rattle.std.specs.Prelude.{◌≡◌, ◌≤◌, ◌<◌, ◌+◌, ◌-◌, ◌++◌, length, map, reverse, IfOk, OnOk};
ghost use Rattle.std.specs.List.{range_with_len};
ghost use Rattle.cert_base.specs.declared.node.Node.TheVariants.{Twin as twin_node, Present as present_node};
ghost use Rattle.comp_trees.specs.LeaderTree.{weighed_node};
ghost use Rattle.comp_counting.specs.declared.limits.TheConstants.{PLACE_LIMIT};
ghost use Rattle.comp_flock.specs.CountProof.{with_mix, without_mix, prefix_nodes as nodes_of};
ghost use Rattle.comp_flock.specs.CountProof.{enough_tree as tree_of_enough, too_few_tree as tree_of_few};
ghost use Rattle.comp_flock.specs.CountProof.{count_tree};

use crate::multipliers::{first, with_prefix, without_prefix};
use crate::worths::Worths;
use cert_base::Node;
use comp_counting::{converted_node, full_tree, opened_number};
use comp_trees::weighed;
use pop_io::{List, NoMemory};
use pop_leaf::Leaf;
use std::alloc::Global;

/// A twin for each power.
fn push_twins(nodes: &mut Vec<Node>, top: u16) -> Result<(), NoMemory>
    requires { top ≤ PLACE_LIMIT }
    ensures { OnOk result (nodes.new.items ≡ nodes.old.items ++ map twin_node (range_with_len 1 top)) }
{
    for q in 1..top + 1 {
        nodes.push(Node::Twin(q))?;
    }
    Ok(())
}

fn with_node(alloc: Global, leaf: &Leaf, worths: &Worths<'_>, p: u16) -> Result<Node, NoMemory>
    requires states { length leaf.now.states ≡ worths.now.k + 2 }
    requires top { worths.now.top < p }
    requires prefix { p ≤ worths.now.k }
    ensures { IfOk result (λ node.
        node ≡ weighed_node (with_mix leaf.now worths.now.most worths.now.list.now worths.now.k worths.now.top p)) }
{
    let multipliers = with_prefix(alloc, leaf, worths, p)?;
    weighed(alloc, multipliers.as_slice())
}

fn without_node(alloc: Global, worths: &Worths<'_>) -> Result<Node, NoMemory>
    ensures { IfOk result (λ node.
        node ≡ weighed_node (without_mix worths.now.most worths.now.list.now worths.now.k worths.now.top)) }
{
    let multipliers = without_prefix(alloc, worths)?;
    weighed(alloc, multipliers.as_slice())
}

/// Each prefix in turn is present or not.
fn push_present(nodes: &mut Vec<Node>, k: u16, top: u16) -> Result<(), NoMemory>
    requires top { top ≤ k }
    requires few { k ≤ PLACE_LIMIT }
    ensures { OnOk result (nodes.new.items ≡ nodes.old.items ++ map present_node (range_with_len (top + 1) (k - top))) }
{
    for p in top + 1..k + 1 {
        nodes.push(Node::Present(p))?;
    }
    Ok(())
}

/// The ends of the prefixes, the last prefix's first.
fn push_ends(
    nodes: &mut Vec<Node>,
    alloc: Global,
    leaf: &Leaf,
    worths: &Worths<'_>,
) -> Result<(), NoMemory>
    requires states { length leaf.now.states ≡ worths.now.k + 2 }
    ensures { OnOk result (nodes.new.items ≡ nodes.old.items
        ++ reverse (map (λ p. weighed_node (with_mix leaf.now worths.now.most worths.now.list.now worths.now.k worths.now.top p))
        (range_with_len (worths.now.top + 1) (worths.now.k - worths.now.top)))) }
{
    for j in 0..worths.k - worths.top {
        nodes.push(with_node(alloc, leaf, worths, worths.k - j)?)?;
    }
    Ok(())
}

/// Each prefix in turn is present, or none is.
fn push_prefixes(
    nodes: &mut Vec<Node>,
    alloc: Global,
    leaf: &Leaf,
    worths: &Worths<'_>,
) -> Result<(), NoMemory>
    requires states { length leaf.now.states ≡ worths.now.k + 2 }
    ensures { OnOk result (nodes.new.items
        ≡ nodes.old.items ++ nodes_of leaf.now worths.now.most worths.now.list.now worths.now.k worths.now.top) }
{
    push_present(nodes, worths.k, worths.top)?;
    nodes.push(without_node(alloc, worths)?)?;
    push_ends(nodes, alloc, leaf, worths)
}

/// Where there are enough: a full one is absent at the end, or it is present.
fn enough_tree(alloc: Global, leaf: &Leaf, worths: &Worths<'_>) -> Result<List<Node>, NoMemory>
    requires states { length leaf.now.states ≡ worths.now.k + 2 }
    ensures { IfOk result (λ nodes.
        nodes ≡ tree_of_enough leaf.now worths.now.most worths.now.list.now worths.now.k worths.now.top) }
{
    let mut nodes = Vec::new(alloc);
    nodes.push(Node::Open(opened_number(worths.k)))?;
    nodes.push(Node::Present(worths.k + 1))?;
    push_twins(&mut nodes, worths.top)?;
    push_prefixes(&mut nodes, alloc, leaf, worths)?;
    nodes.push(converted_node(alloc, worths.k)?)?;
    Ok(List::from_vec(nodes))
}

/// Where there aren't: a full one was made, or started so, or never occurred.
fn too_few_tree(alloc: Global, worths: &Worths<'_>) -> Result<List<Node>, NoMemory>
    ensures { IfOk result (λ nodes. nodes ≡ tree_of_few worths.now.list.now worths.now.target worths.now.enough worths.now.k) }
{
    let first = first(alloc, worths)?;
    full_tree(alloc, worths.enough, worths.k, first)
}

/// The tree for one value of the predicate, that there are enough or too few.
pub(crate) fn tree(
    alloc: Global,
    says: bool,
    leaf: &Leaf,
    worths: &Worths<'_>,
) -> Result<List<Node>, NoMemory>
    requires states { length leaf.now.states ≡ worths.now.k + 2 }
    ensures { IfOk result (λ nodes. nodes
        ≡ count_tree says leaf.now worths.now.most worths.now.list.now worths.now.target worths.now.enough worths.now.k
        worths.now.top) }
{
    if says {
        enough_tree(alloc, leaf, worths)
    } else {
        too_few_tree(alloc, worths)
    }
}
