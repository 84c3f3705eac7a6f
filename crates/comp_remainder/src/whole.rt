//! The leaf with its proof.

ghost use Rattle.std.specs.Prelude.{◌≡◌, ◌≤◌, IfOk};
ghost use Rattle.pres_ast.specs.PredModel.{IsAtomSum, IsResidue};
ghost use Rattle.comp_trees.specs.BuiltLeaf.{IsBuilt};
ghost use Rattle.comp_remainder.specs.RemainderLeaf.{remainder_leaf_of};
ghost use Rattle.comp_remainder.specs.RemainderProof.{congruence, remainder_steps, remainder_part};

use crate::leaf::remainder_leaf;
use crate::modulus::Modulus;
use crate::node::both_trees;
use crate::weights::leaf_layers;
use cert_base::LeafProof;
use pop_io::{List, NoMemory};
use pop_leaf::{HELPER_LIMIT, Leaf};
use pres_ast::{Pred, Tree};
use std::alloc::Global;

fn congruent(alloc: Global, coefs: &[i64], modulus: u32, rest: u32) -> Result<Pred, NoMemory>
    requires sum { IsAtomSum coefs.now }
    requires modulus { IsResidue modulus rest }
    ensures { IfOk result (λ pred. pred ≡ congruence coefs.now modulus rest) }
{
    let tree = Tree::Rest {
        coefs: List::from_vec(Vec::from_slice(alloc, coefs)?),
        modulus,
        rest,
    };
    Ok(Pred::new(coefs.len() as u16, tree))
}

fn leaf_proof(
    alloc: Global,
    coefs: &[i64],
    modulus: u32,
    rest: u32,
    spare: u32,
    leaf: &Leaf,
) -> Result<LeafProof, NoMemory>
    requires built { leaf.now ≡ remainder_leaf_of coefs.now modulus rest spare }
    requires sum { IsAtomSum coefs.now }
    requires modulus { IsResidue modulus rest }
    ensures { IfOk result (λ part. part ≡ remainder_part coefs.now modulus rest spare) }
{
    let pred = congruent(alloc, coefs, modulus, rest)?;
    let number = Modulus::new(modulus as u16);
    let layers = leaf_layers(alloc, leaf, number)?;
    let (on_true, on_false) = both_trees(alloc, leaf, number, rest as u16)?;
    Ok(LeafProof {
        pred,
        layers,
        on_true,
        on_false,
    })
}

/// The built leaf of `Rest` with this many spare helpers, and a valid proof for it.
pub fn remainder(
    alloc: Global,
    coefs: &[i64],
    modulus: u32,
    rest: u32,
    spare: u32,
) -> Result<(Leaf, LeafProof), NoMemory>
    requires sum { IsAtomSum coefs.now }
    requires modulus { IsResidue modulus rest }
    requires spare { spare ≤ HELPER_LIMIT }
    ensures built { IfOk result
        (λ both. IsBuilt (remainder_leaf_of coefs.now modulus rest spare) (congruence coefs.now modulus rest) remainder_steps
        both.0 both.1) }
    ensures part { IfOk result (λ both. both.1 ≡ remainder_part coefs.now modulus rest spare) }
{
    let leaf = remainder_leaf(
        alloc,
        coefs,
        Modulus::new(modulus as u16),
        rest as u16,
        spare,
    )?;
    let proof = leaf_proof(alloc, coefs, modulus, rest, spare, &leaf)?;
    Ok((leaf, proof))
}
