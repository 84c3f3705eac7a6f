//! Whether a net combines its leaves' predicates into a given one.

ghost use Rattle.std.specs.Prelude.{◌≡◌, ◌↔◌, ◌≤◌, ◌<◌, length, Some, IsTrue, All};
ghost use Rattle.pres_ast.specs.TreeOf.{tree_of};
ghost use Rattle.pop_leaf.specs.NetModel.{IsNet};
ghost use Rattle.cert_base.specs.ValidProof.{CombinesTo};
ghost use Rattle.pop_checker.specs.Combination.{IsNetPred, leaf_trees, IsBegin};

use cert_base::{LeafProof, Proof};
use pop_net::{Item, Net};
use pres_ast::{Pred, Tree};

/// Whether the net's combination, with each leaf's predicate in place of its number, is the predicate's tree, and all
/// predicates are over the net's variables. Allocates nothing.
pub fn net_pred_is(net: &Net, proof: &Proof, pred: &Pred) -> bool
    requires { length proof.now.leaves ≡ length net.now.leaves }
    ensures { IsTrue result ↔ IsNetPred net.now proof.now pred.now }
{
    let parts = proof.leaves.as_slice();
    let variables = net.var_count();
    pred.vars() == variables && are_over(parts, variables) && combines(net, parts, pred)
}

fn are_over(parts: &[LeafProof], variables: u16) -> bool
    ensures { IsTrue result ↔ All (λ part. part.pred.variables ≡ variables) parts.now }
{
    parts.iter().all(|part| part.pred.vars() == variables)
}

fn combines(net: &Net, parts: &[LeafProof], pred: &Pred) -> bool
    requires formed { IsNet net.now }
    requires one_each { length parts.now ≡ length net.now.leaves }
    ensures { IsTrue result ↔ CombinesTo net.now (record { leaves = parts.now }) pred.now }
{
    let begin = begin_of(net, parts, net.item_count(), pred.tree());
    begin == Some(0)
}

/// Where the tree begins, if the items before `end` end with it.
fn begin_of(net: &Net, parts: &[LeafProof], end: u32, tree: &Tree) -> Option<u32>
    requires formed { IsNet net.now }
    requires within { end ≤ length net.now.combine }
    requires one_each { length parts.now ≡ length net.now.leaves }
    ensures { IsBegin parts.now net.now.combine end (tree_of tree.now) result }
{
    if end == 0 {
        return None;
    }
    let at = end - 1;
    match (net.item(at), tree) {
        (Item::Leaf(leaf), _) => {
            if is_part(parts, leaf, tree) {
                Some(at)
            } else {
                None
            }
        }
        (Item::Not, Tree::Not(p)) => begin_of(net, parts, at, p),
        (Item::And, Tree::And(p, q)) => begin_of(net, parts, begin_of(net, parts, at, q)?, p),
        (Item::Or, Tree::Or(p, q)) => begin_of(net, parts, begin_of(net, parts, at, q)?, p),
        _ => None,
    }
}

fn is_part(parts: &[LeafProof], leaf: u8, tree: &Tree) -> bool
    requires { leaf < length parts.now }
    ensures { IsTrue result ↔ ((leaf_trees parts.now).leaf leaf ≡ tree_of tree.now) }
{
    parts[leaf as usize].pred.tree().same(tree)
}
