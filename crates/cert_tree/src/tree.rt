//! The check of a tree.

ghost use Rattle.std.specs.Prelude.{◌≡◌, ◌≤◌, length, All};
ghost use Rattle.cert_base.specs.declared.limits.TheConstants.{NODE_LIMIT, SET_LIMIT};
ghost use Rattle.cert_base.specs.Ends.{HaveSamePlaces};
ghost use Rattle.cert_tree.specs.Format.{IsWithinFormat};
ghost use Rattle.cert_tree.specs.Refusals.{AreNodesOf, ChecksTree, ChecksGoalTree};
ghost use Rattle.cert_tree.specs.Frames.{IsFit};
ghost use Rattle.cert_tree.specs.Walks.{WalksNodes};
ghost use Rattle.cert_tree.specs.Halts.{fault_at};

use crate::fault::{TreeFault, TreeWhy};
use crate::walk::Walk;
use cert_base::{Fact, Node, base_facts, goal_facts};
use pop_io::{Failure, List};
use pop_leaf::{Leaf, hushed_leaf};
use pres_ast::Pred;
use std::alloc::Global;

/// Whether the nodes, a tree in preorder, close the facts that hold at each end whose input gives the predicate this
/// value and where some agent has another output (Blondin, Esparza, Jaax, Meyer 2017).
pub fn check_tree(
    alloc: Global,
    leaf: &Leaf,
    pred: &Pred,
    value: bool,
    nodes: &List<Node>,
) -> Result<(), Failure<TreeFault>>
    requires { AreNodesOf leaf.now pred.now nodes.now }
    ensures { ChecksTree leaf.now pred.now value nodes.now result }
{
    // What the invariants say is known from here on.
    let _formed = leaf.state_count();
    let _limits = pred.vars();
    let facts = base_facts(alloc, leaf, pred, value)?;
    walk_nodes(alloc, leaf, leaf, facts, nodes)
}

/// Whether the nodes, a tree in preorder, close the facts that hold at each end whose input gives the predicate this
/// value, where `dead` has no step and each of the sets has an agent outside.
pub fn check_goal_tree(
    alloc: Global,
    leaf: &Leaf,
    dead: &Leaf,
    pred: &Pred,
    value: bool,
    sets: &List<List<u16>>,
    nodes: &List<Node>,
) -> Result<(), Failure<TreeFault>>
    requires nodes { AreNodesOf leaf.now pred.now nodes.now }
    requires sets { length sets.now ≤ SET_LIMIT }
    requires places { HaveSamePlaces leaf.now dead.now }
    ensures { ChecksGoalTree leaf.now dead.now pred.now value sets.now nodes.now result }
{
    // What the invariants say is known from here on.
    let _formed = leaf.state_count();
    let _limits = pred.vars();
    let facts = goal_facts(alloc, leaf, pred, value, sets)?;
    walk_nodes(alloc, leaf, dead, facts, nodes)
}

/// The nodes are walked in order.
fn walk_nodes(
    alloc: Global,
    leaf: &Leaf,
    dead: &Leaf,
    facts: List<Fact>,
    nodes: &List<Node>,
) -> Result<(), Failure<TreeFault>>
    requires places { HaveSamePlaces leaf.now dead.now }
    requires fit { IsFit (0, facts) }
    requires few { length nodes.now ≤ NODE_LIMIT }
    requires within { All IsWithinFormat nodes.now }
    ensures { WalksNodes leaf.now dead.now facts nodes.now result }
{
    let stopped = hushed_leaf(alloc, leaf, &[])?;
    let mut walk = Walk::new(alloc, facts)?;
    for (number, node) in nodes.as_slice().iter().enumerate() {
        if let Err(halt) = walk.visit(alloc, leaf, dead, &stopped, node) {
            return Err(at_node(halt, number as u32));
        }
    }
    if walk.next_case()? {
        return Err(Failure::Fault(TreeFault {
            node: nodes.as_slice().len() as u32,
            why: TreeWhy::Missing,
        }));
    }
    Ok(())
}

/// The failure at the node with this number.
fn at_node(halt: Failure<TreeWhy>, node: u32) -> Failure<TreeFault>
    ensures { result ≡ fault_at node halt }
{
    match halt {
        Failure::Fault(why) => Failure::Fault(TreeFault { node, why }),
        Failure::NoMemory => Failure::NoMemory,
    }
}
