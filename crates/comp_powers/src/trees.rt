//! Both trees of a leaf.

ghost use Rattle.std.specs.Prelude.{◌≡◌, ◌≤◌, ◌+◌, ◌++◌, ◌∷◌, [], length, map, IfOk, OnOk};
ghost use Rattle.cert_base.specs.declared.node.Node.TheVariants.{Open as open_node, Trap as trap_node};
ghost use Rattle.cert_base.specs.declared.node.Node.TheVariants.{Twin as twin_node};
ghost use Rattle.cert_base.specs.declared.node.Node.TheVariants.{Present as present_node};
ghost use Rattle.pop_leaf.specs.declared.limits.TheConstants.{STATE_LIMIT};
ghost use Rattle.comp_trees.specs.LeaderTree.{weighed_node};
ghost use Rattle.comp_trees.specs.declared.range.TheConstants.{RANGE_LIMIT};
ghost use Rattle.comp_powers.specs.PowersProof.{hubs, twin_places, powers_tree, no_leak_mix, helped_mix};
ghost use Rattle.comp_powers.specs.PowersProof.{no_hub_mix};

use crate::multipliers::{few, helped, high, low, no_hub, no_leak};
use crate::roled::RoledLeaf;
use cert_base::Node;
use pop_io::{List, NoMemory};
use pop_leaf::Leaf;
use std::alloc::Global;

/// The trap of both hubs.
fn trap(alloc: Global) -> Result<Node, NoMemory>
    ensures { IfOk result (λ node. node ≡ trap_node hubs) }
{
    let hubs = Vec::from_slice(alloc, &[0u16, 1])?;
    Ok(Node::Trap(List::from_vec(hubs)))
}

/// Some hub is left, and it is looked for.
fn top(alloc: Global, leaf: &Leaf) -> Result<Vec<Node>, NoMemory>
    requires { length leaf.now.states ≤ STATE_LIMIT }
    ensures { IfOk result (λ nodes. nodes.items
        ≡ open_node (length leaf.now.states + 1) ∷ trap_node hubs ∷ weighed_node (no_leak_mix leaf.now)
        ∷ weighed_node (helped_mix leaf.now) ∷ present_node 0 ∷ present_node 1 ∷ weighed_node (no_hub_mix leaf.now)
        ∷ []) }
{
    let mut nodes = Vec::new(alloc);
    nodes.push(Node::Open(u32::from(leaf.state_count()) + 1))?;
    nodes.push(trap(alloc)?)?;
    nodes.push(no_leak(alloc, leaf)?)?;
    nodes.push(helped(alloc, leaf)?)?;
    nodes.push(Node::Present(0))?;
    nodes.push(Node::Present(1))?;
    nodes.push(no_hub(alloc, leaf)?)?;
    Ok(nodes)
}

/// The places of the pieces that say true.
fn twins(alloc: Global, coefs: &[i64], k: u32) -> Result<Vec<u16>, NoMemory>
    requires { k ≤ RANGE_LIMIT }
    ensures { IfOk result (λ places. places.items ≡ twin_places coefs.now k) }
{
    let places = (0..k as u16).map(|i| 4 + 2 * i + 1).collect(alloc)?;
    Ok(places)
}

fn push_twins(nodes: &mut Vec<Node>, places: &[u16]) -> Result<(), NoMemory>
    ensures { OnOk result (nodes.new.items ≡ nodes.old.items ++ map twin_node places.now) }
{
    for q in places {
        nodes.push(Node::Twin(*q))?;
    }
    Ok(())
}

/// The tree for one value of the predicate.
pub(crate) fn tree(alloc: Global, powers: &RoledLeaf<'_>, b: bool) -> Result<List<Node>, NoMemory>
    ensures { IfOk result (λ nodes. nodes ≡ powers_tree powers.now.coefs.now powers.now.k powers.now.leaf.now b) }
{
    let mut nodes = top(alloc, powers.leaf)?;
    nodes.push(high(alloc, powers, b)?)?;
    let places = twins(alloc, powers.coefs, powers.k)?;
    push_twins(&mut nodes, places.as_slice())?;
    nodes.push(Node::Present(3))?;
    nodes.push(few(alloc, powers)?)?;
    nodes.push(low(alloc, powers, b)?)?;
    Ok(List::from_vec(nodes))
}
