//! Whether the states of a set have one output.

ghost use Rattle.std.specs.Prelude.{MatchBool};
ghost use Rattle.pop_leaf.specs.LeafModel.{IsLeaf};
ghost use Rattle.cert_sets.specs.SetFaults.{HasOutput};
ghost use Rattle.cert_sets.specs.SetSearch.{FindsOther};

use pop_leaf::Leaf;

/// The first state of the set that doesn't have the value as its output.
pub(crate) fn first_other(leaf: &Leaf, value: bool, set: &[u16]) -> Option<u16>
    requires { IsLeaf leaf.now }
    ensures { FindsOther leaf.now value set.now result }
{
    for q in set {
        if !has_output(leaf, value, *q) {
            return Some(*q);
        }
    }
    None
}

fn has_output(leaf: &Leaf, value: bool, q: u16) -> bool
    requires { IsLeaf leaf.now }
    ensures { MatchBool result (HasOutput leaf.now value q) (¬ HasOutput leaf.now value q) }
{
    q < leaf.state_count() && leaf.output(q) == value
}
