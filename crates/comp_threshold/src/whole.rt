//! The leaf with its proof.

ghost use Rattle.std.specs.Prelude.{◌≡◌, ◌≤◌, nat_abs, AllPairs, length, IfOk};
ghost use Rattle.pop_leaf.specs.Reaction.{Differ};
ghost use Rattle.pres_ast.specs.PredTree.{LessThan};
ghost use Rattle.pres_ast.specs.declared.limits.TheConstants.{BOUND_LIMIT};
ghost use Rattle.pres_ast.specs.PredModel.{IsAtomSum};
ghost use Rattle.comp_threshold.specs.ThresholdLeaf.{threshold_leaf_of, threshold_width};
ghost use Rattle.comp_threshold.specs.Built.{IsThreshold, BuildsThreshold};

use crate::bounded::BoundedLeaf;
use crate::building::threshold_leaf;
use crate::fault::ThresholdFault;
use crate::limits::WIDTH_LIMIT;
use crate::narrow::Width;
use crate::node::both_trees;
use crate::values::place;
use crate::weights::leaf_layers;
use crate::wide::width;
use cert_base::LeafProof;
use pop_io::{Failure, List, NoMemory};
use pop_leaf::Leaf;
use pres_ast::{Pred, Tree};
use std::alloc::Global;

fn less(alloc: Global, coefs: &[i64], bound: i64) -> Result<Pred, NoMemory>
    requires sum { IsAtomSum coefs.now }
    requires bound { nat_abs bound ≤ BOUND_LIMIT }
    ensures { IfOk result (λ pred. pred ≡ record { variables = length coefs.now; tree = LessThan coefs.now bound }) }
{
    let tree = Tree::Less {
        coefs: List::from_vec(Vec::from_slice(alloc, coefs)?),
        bound,
    };
    Ok(Pred::new(coefs.len() as u16, tree))
}

fn leaf_proof(
    alloc: Global,
    coefs: &[i64],
    bound: i64,
    width: Width,
    leaf: &Leaf,
) -> Result<LeafProof, NoMemory>
    requires exact { width.number ≡ threshold_width coefs.now bound }
    requires sum { IsAtomSum coefs.now }
    requires bound { nat_abs bound ≤ BOUND_LIMIT }
    requires built { leaf.now ≡ threshold_leaf_of coefs.now bound }
    requires single { AllPairs Differ leaf.now.moves }
    ensures { IfOk result (IsThreshold coefs.now bound leaf.now) }
{
    let t = place(width, bound);
    let pred = less(alloc, coefs, bound)?;
    let layers = leaf_layers(alloc, leaf, width)?;
    let bounded = BoundedLeaf {
        leaf,
        width,
        bound: t,
    };
    let (on_true, on_false) = both_trees(alloc, &bounded)?;
    Ok(LeafProof {
        pred,
        layers,
        on_true,
        on_false,
    })
}

/// A leaf of this width.
fn leaf_of_width(
    alloc: Global,
    coefs: &[i64],
    bound: i64,
    width: Width,
) -> Result<(Leaf, LeafProof), NoMemory>
    requires exact { width.number ≡ threshold_width coefs.now bound }
    requires sum { IsAtomSum coefs.now }
    requires bound { nat_abs bound ≤ BOUND_LIMIT }
    ensures { IfOk result (λ both. IsThreshold coefs.now bound both.0 both.1) }
{
    let leaf = threshold_leaf(alloc, coefs, bound, width)?;
    let proof = leaf_proof(alloc, coefs, bound, width, &leaf)?;
    Ok((leaf, proof))
}

/// The leaf of `Less` with these coefficients and this bound, and its proof.
pub fn threshold(
    alloc: Global,
    coefs: &[i64],
    bound: i64,
) -> Result<(Leaf, LeafProof), Failure<ThresholdFault>>
    requires sum { IsAtomSum coefs.now }
    requires bound { nat_abs bound ≤ BOUND_LIMIT }
    ensures { BuildsThreshold coefs.now bound result }
{
    let s = width(coefs, bound);
    if WIDTH_LIMIT < s {
        return Err(Failure::Fault(ThresholdFault::TooWide(s)));
    }
    Ok(leaf_of_width(alloc, coefs, bound, Width::new(s as u16))?)
}
