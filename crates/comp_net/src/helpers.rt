//! How many helpers a net has.

ghost use Rattle.std.specs.Prelude.{◌≡◌, ◌≤◌};
ghost use Rattle.pres_ast.specs.TreeOf.{tree_of};
ghost use Rattle.pres_ast.specs.PredTree.{LessThan};
ghost use Rattle.comp_net.specs.Atoms.{most_helpers};

use crate::choice::{LessLeaf, NetLeaves, less_leaf};
use comp_flock::offset_helper_count;
use pop_net::HELPER_LIMIT;
use pres_ast::Tree;

/// How many helpers the leaf of an atom `Less` needs.
fn less_helpers(choice: NetLeaves, coefs: &[i64], bound: i64) -> u32
    ensures most { result ≡ most_helpers choice (LessThan coefs.now bound) }
    ensures few { result ≤ HELPER_LIMIT }
{
    match less_leaf(choice, coefs, bound) {
        LessLeaf::Powers(range) => range + 2,
        LessLeaf::Offset(power) => offset_helper_count(bound, power),
        LessLeaf::Prefix(_) => 0,
        LessLeaf::Threshold => 0,
        LessLeaf::Flock(_) => 0,
        LessLeaf::NoLeaf => 0,
    }
}

/// As many as the atom that needs most.
pub(crate) fn count_helpers(choice: NetLeaves, tree: &Tree) -> u32
    ensures most { result ≡ most_helpers choice (tree_of tree.now) }
    ensures few { result ≤ HELPER_LIMIT }
{
    match tree {
        Tree::Less { coefs, bound } => less_helpers(choice, coefs.as_slice(), *bound),
        Tree::Rest { .. } => 0,
        Tree::Not(p) => count_helpers(choice, p),
        Tree::And(p, q) => count_helpers(choice, p).max(count_helpers(choice, q)),
        Tree::Or(p, q) => count_helpers(choice, p).max(count_helpers(choice, q)),
    }
}
