//! The nodes of a tree in preorder.

ghost use Rattle.std.specs.Prelude.{◌≡◌, ◌++◌, ◌≤◌, ◌+◌, map, reverse, length, IfOk, OnOk};
ghost use Rattle.std.specs.List.{range_with_len};
ghost use Rattle.cert_base.specs.declared.node.Node.TheVariants.{Present as present_node};
ghost use Rattle.comp_trees.specs.LeaderTree.{tree_of_ends, no_leak_mix, no_start_mix};
ghost use Rattle.comp_trees.specs.LeaderTree.{no_input_mix, helped_mix, no_leader_mix, top_nodes, weighed_node};

use crate::mixing::{MULTIPLIER_LIMIT, weighed};
use cert_base::Node;
use pop_io::{List, NoMemory};
use pop_leaf::Leaf;
use std::alloc::Global;

/// The whole tree, with these nodes at the ends of the leaders' branches, the first leader's first.
pub fn tree(alloc: Global, leaf: &Leaf, ends: Vec<Node>) -> Result<List<Node>, NoMemory>
    requires { length ends.items ≤ length leaf.now.states }
    ensures { IfOk result (λ nodes. nodes ≡ tree_of_ends leaf.now ends.items) }
{
    // What the invariant says is known from here on.
    let _formed = leaf.state_count();
    let leaders = ends.len() as u16;
    let mut nodes = top(alloc, leaf, leaders)?;
    push_present(&mut nodes, leaders)?;
    nodes.push(no_leader(alloc, leaf, leaders)?)?;
    push_reversed(&mut nodes, ends)?;
    Ok(List::from_vec(nodes))
}

fn push_present(nodes: &mut Vec<Node>, leaders: u16) -> Result<(), NoMemory>
    ensures { OnOk result (nodes.new.items ≡ nodes.old.items ++ map present_node (range_with_len 0 leaders)) }
{
    for p in 0..leaders {
        nodes.push(Node::Present(p))?;
    }
    Ok(())
}

fn push_reversed(nodes: &mut Vec<Node>, ends: Vec<Node>) -> Result<(), NoMemory>
    ensures { OnOk result (nodes.new.items ≡ nodes.old.items ++ reverse ends.items) }
{
    let mut ends = ends;
    while let Some(node) = ends.pop() {
        nodes.push(node)?;
    }
    Ok(())
}

fn top(alloc: Global, leaf: &Leaf, leaders: u16) -> Result<Vec<Node>, NoMemory>
    requires { leaders ≤ length leaf.now.states }
    ensures { IfOk result (λ nodes. nodes.items ≡ top_nodes leaf.now leaders) }
{
    let mut nodes = Vec::new(alloc);
    nodes.push(Node::Open(u32::from(leaf.state_count()) + 1))?;
    nodes.push(Node::Trap(leader_set(alloc, leaders)?))?;
    nodes.push(no_leak(alloc, leaf)?)?;
    nodes.push(no_start(alloc, leaf)?)?;
    Ok(nodes)
}

fn no_leak(alloc: Global, leaf: &Leaf) -> Result<Node, NoMemory>
    ensures { IfOk result (λ node. node ≡ weighed_node (no_leak_mix leaf.now)) }
{
    // What the invariant says is known from here on.
    let _formed = leaf.state_count();
    let multipliers = no_leak_by(alloc, leaf)?;
    weighed(alloc, multipliers.as_slice())
}

fn no_start(alloc: Global, leaf: &Leaf) -> Result<Node, NoMemory>
    ensures { IfOk result (λ node. node ≡ weighed_node (no_start_mix leaf.now)) }
{
    let multipliers = no_start_by(alloc, leaf)?;
    weighed(alloc, multipliers.as_slice())
}

fn leader_set(alloc: Global, leaders: u16) -> Result<List<u16>, NoMemory>
    ensures { IfOk result (λ set. set ≡ range_with_len 0 leaders) }
{
    let mut set = Vec::new(alloc);
    for p in 0..leaders {
        set.push(p)?;
    }
    Ok(List::from_vec(set))
}

/// The trap's fact.
fn no_leak_by(alloc: Global, leaf: &Leaf) -> Result<Vec<i64>, NoMemory>
    ensures list { IfOk result (λ multipliers. multipliers.items ≡ no_leak_mix leaf.now) }
    ensures size { IfOk result (λ multipliers. length multipliers.items ≡ length leaf.now.states + 5) }
{
    let mut multipliers = vec![in alloc; 0i64; usize::from(leaf.state_count()) + 4]?;
    multipliers.push(1)?;
    Ok(multipliers)
}

fn no_start_by(alloc: Global, leaf: &Leaf) -> Result<Vec<i64>, NoMemory>
    ensures list { IfOk result (λ multipliers. multipliers.items ≡ no_start_mix leaf.now) }
    ensures short { IfOk result (λ multipliers. length multipliers.items ≤ MULTIPLIER_LIMIT) }
{
    if leaf.helper_count() == 0 {
        no_input_by(alloc, leaf)
    } else {
        helped_by(alloc, leaf)
    }
}

fn helped_by(alloc: Global, leaf: &Leaf) -> Result<Vec<i64>, NoMemory>
    ensures list { IfOk result (λ multipliers. multipliers.items ≡ helped_mix leaf.now) }
    ensures short { IfOk result (λ multipliers. length multipliers.items ≤ MULTIPLIER_LIMIT) }
{
    let mut multipliers = vec![in alloc; 0i64; usize::from(leaf.state_count()) + 4]?;
    let started = leaf.move_count() as usize + usize::from(leaf.input_count());
    let mut own = vec![in alloc; 0i64; started + 1]?;
    own.push(-1)?;
    multipliers.extend_from_slice(own.as_slice())?;
    Ok(multipliers)
}

fn no_input_by(alloc: Global, leaf: &Leaf) -> Result<Vec<i64>, NoMemory>
    ensures list { IfOk result (λ multipliers. multipliers.items ≡ no_input_mix leaf.now) }
    ensures short { IfOk result (λ multipliers. length multipliers.items ≤ MULTIPLIER_LIMIT) }
{
    let mut multipliers = vec![in alloc; 0i64; usize::from(leaf.state_count())]?;
    multipliers.extend_from_slice(&[1, 0, 0])?;
    multipliers.extend_from_slice(&[0])?;
    let mut own = vec![in alloc; 0i64; leaf.move_count() as usize]?;
    let ones = vec![in alloc; -1i64; usize::from(leaf.input_count())]?;
    own.extend_from_slice(ones.as_slice())?;
    own.push(0)?;
    multipliers.extend_from_slice(own.as_slice())?;
    Ok(multipliers)
}

/// The trap's fact, less the facts that each leader is absent.
fn no_leader(alloc: Global, leaf: &Leaf, leaders: u16) -> Result<Node, NoMemory>
    ensures { IfOk result (λ node. node ≡ weighed_node (no_leader_mix leaf.now leaders)) }
{
    // What the invariant says is known from here on.
    let _formed = leaf.state_count();
    let mut multipliers = no_leak_by(alloc, leaf)?;
    let ones = vec![in alloc; -1i64; usize::from(leaders)]?;
    multipliers.extend_from_slice(ones.as_slice())?;
    weighed(alloc, multipliers.as_slice())
}
