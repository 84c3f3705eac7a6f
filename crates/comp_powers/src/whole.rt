//! The leaf with its proof.

ghost use Rattle.std.specs.Prelude.{◌≡◌, IfOk};
ghost use Rattle.pres_ast.specs.PredModel.{IsAtomSum};
ghost use Rattle.comp_trees.specs.BuiltLeaf.{IsBuilt};
ghost use Rattle.comp_powers_leaf.specs.PowersLeaf.{IsPowers, HasRoom, powers_leaf_of};
ghost use Rattle.comp_powers.specs.PowersProof.{powers_part, powers_steps, powers_pred_of};

use crate::roled::RoledLeaf;
use crate::trees::tree;
use crate::weights::powers_layers;
use cert_base::LeafProof;
use comp_powers_leaf::{Role, powers_leaf, roles};
use pop_io::{List, NoMemory};
use pop_leaf::Leaf;
use pres_ast::{Pred, Tree};
use std::alloc::Global;

fn powers_pred(alloc: Global, coefs: &[i64], bound: i64, k: u32) -> Result<Pred, NoMemory>
    requires sum { IsAtomSum coefs.now }
    requires range { IsPowers coefs.now bound k }
    ensures { IfOk result (λ pred. pred ≡ powers_pred_of coefs.now bound) }
{
    let tree = Tree::Less {
        coefs: List::from_vec(Vec::from_slice(alloc, coefs)?),
        bound,
    };
    Ok(Pred::new(coefs.len() as u16, tree))
}

fn leaf_proof(
    alloc: Global,
    leaf: &Leaf,
    coefs: &[i64],
    bound: i64,
    k: u32,
    spare: u32,
) -> Result<LeafProof, NoMemory>
    requires sum { IsAtomSum coefs.now }
    requires range { IsPowers coefs.now bound k }
    requires leaf { leaf.now ≡ powers_leaf_of coefs.now bound k spare }
    ensures { IfOk result (λ part. part ≡ powers_part coefs.now bound k spare) }
{
    let pred = powers_pred(alloc, coefs, bound, k)?;
    let roles = roles(alloc, coefs, k)?;
    let powers = RoledLeaf {
        leaf,
        coefs,
        k,
        roles: roles.as_slice(),
    };
    let layers = powers_layers(alloc, &powers)?;
    let on_true = tree(alloc, &powers, true)?;
    let on_false = tree(alloc, &powers, false)?;
    Ok(LeafProof {
        pred,
        layers,
        on_true,
        on_false,
    })
}

/// The built leaf of `Less` with these coefficients and this bound, for the range 2^k, with this many spare helpers,
/// and a valid proof for it. No two moves of the leaf take the same states.
pub fn powers(
    alloc: Global,
    coefs: &[i64],
    bound: i64,
    k: u32,
    spare: u32,
) -> Result<(Leaf, LeafProof), NoMemory>
    requires sum { IsAtomSum coefs.now }
    requires range { IsPowers coefs.now bound k }
    requires room { HasRoom k spare }
    ensures { IfOk result (λ both. IsBuilt (powers_leaf_of coefs.now bound k spare) (powers_pred_of coefs.now bound)
        (powers_steps coefs.now k) both.0 both.1) }
{
    let leaf = powers_leaf(alloc, coefs, bound, k, spare)?;
    let proof = leaf_proof(alloc, &leaf, coefs, bound, k, spare)?;
    Ok((leaf, proof))
}
