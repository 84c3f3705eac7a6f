//! The leaf with its proof.

ghost use Rattle.std.specs.Prelude.{◌≡◌, IfOk};
ghost use Rattle.comp_trees.specs.BuiltLeaf.{IsBuilt};
ghost use Rattle.comp_counting.specs.declared.limits.TheConstants.{POWER_LIMIT as GREATEST_POWER};
ghost use Rattle.comp_counting.specs.FlockAtoms.{says_enough as says_of, enough_for as enough, IsFlock, IsOffset};
ghost use Rattle.comp_counting.specs.FlockAtoms.{flock_pred_of, offset_pred_of};
ghost use Rattle.comp_counting.specs.FullState.{flock_steps, offset_steps};
ghost use Rattle.comp_flock.specs.CountLeaf.{count_leaf as leaf_of};
ghost use Rattle.comp_flock.specs.CountProof.{count_part};
ghost use Rattle.comp_flock.specs.Covered.{IsCovered};
ghost use Rattle.comp_flock.specs.FlockLeaf.{flock_leaf_of, HasSpareRoom, offset_leaf_of};
ghost use Rattle.comp_flock.specs.PrefixLeaf.{IsPrefix, last_place, prefix_leaf_of};

use crate::full::full_size;
use crate::leaf::count_leaf;
use crate::offset::{helpers, missing};
use crate::trees::tree;
use crate::worths::{Worths, all_worths, power_worths};
use cert_base::LeafProof;
use comp_counting::{
    POWER_LIMIT, bound_of_power, counting_layers, enough_for, offset_pred, says_enough,
};
use comp_trees::two_to;
use pop_io::NoMemory;
use pop_leaf::Leaf;
use std::alloc::Global;

fn leaf_proof(
    alloc: Global,
    leaf: &Leaf,
    coefs: &[i64],
    bound: i64,
    worths: &Worths<'_>,
) -> Result<LeafProof, NoMemory>
    requires atom { IsOffset coefs.now bound GREATEST_POWER }
    requires enough { worths.now.enough ≡ enough bound }
    requires leaf { leaf.now ≡ leaf_of coefs.now (says_of bound) (enough bound) worths.now.keeps worths.now.target
        worths.now.list.now worths.now.k leaf.now.helpers }
    ensures { IfOk result (λ part. part ≡ count_part coefs.now bound worths.now.keeps worths.now.target worths.now.most
        worths.now.list.now worths.now.top worths.now.k) }
{
    let pred = offset_pred(alloc, coefs, bound, POWER_LIMIT)?;
    let layers = counting_layers(alloc, leaf.move_count(), worths.k)?;
    let says = says_enough(bound);
    let on_true = tree(alloc, says, leaf, worths)?;
    let on_false = tree(alloc, !says, leaf, worths)?;
    Ok(LeafProof {
        pred,
        layers,
        on_true,
        on_false,
    })
}

/// The leaf of an atom with these helpers, and a valid proof for it.
fn built(
    alloc: Global,
    coefs: &[i64],
    bound: i64,
    worths: &Worths<'_>,
    helpers: Vec<u16>,
) -> Result<(Leaf, LeafProof), NoMemory>
    requires covered { IsCovered coefs.now bound worths.now.keeps worths.now.target worths.now.most worths.now.list.now
        worths.now.top worths.now.k helpers.items }
    requires enough { worths.now.enough ≡ enough bound }
    ensures { IfOk result (λ both. IsBuilt
        (leaf_of coefs.now (says_of bound) (enough bound) worths.now.keeps worths.now.target worths.now.list.now
        worths.now.k helpers.items)
        (offset_pred_of coefs.now bound) (offset_steps worths.now.k) both.0 both.1) }
{
    let leaf = count_leaf(alloc, coefs, bound, worths, helpers)?;
    let proof = leaf_proof(alloc, &leaf, coefs, bound, worths)?;
    Ok((leaf, proof))
}

/// The built leaf of the atom `Less` with these numbers, which says that a sum is at least c, or denies it, where 2^top
/// is the greatest power of two up to c; and a valid proof for it. The leaf has no helpers, and no two moves of it take
/// the same states.
pub fn prefix_flock(
    alloc: Global,
    coefs: &[i64],
    bound: i64,
    top: u32,
) -> Result<(Leaf, LeafProof), NoMemory>
    requires { IsPrefix coefs.now bound top }
    ensures { IfOk result (λ both. IsBuilt (prefix_leaf_of coefs.now bound top) (offset_pred_of coefs.now bound)
        (offset_steps (last_place bound top)) both.0 both.1) }
{
    let enough = enough_for(bound);
    let all = all_worths(alloc, enough, top)?;
    let list = all.as_slice();
    let worths = Worths {
        list,
        enough,
        target: enough,
        most: two_to(POWER_LIMIT),
        keeps: false,
        top: top as u16,
        k: (list.len() - 2) as u16,
    };
    built(alloc, coefs, bound, &worths, Vec::new(alloc))
}

/// The built leaf of the atom `Less` with these numbers, which says that a sum is at least c, or denies it, for c at
/// most 2^k, with this many spare helpers; and a valid proof for it. No two moves of the leaf take the same states.
pub fn offset_flock(
    alloc: Global,
    coefs: &[i64],
    bound: i64,
    power: u32,
    spare: u32,
) -> Result<(Leaf, LeafProof), NoMemory>
    requires offset { IsOffset coefs.now bound power }
    requires room { HasSpareRoom bound power spare }
    ensures { IfOk result (λ both.
        IsBuilt (offset_leaf_of coefs.now bound power spare) (offset_pred_of coefs.now bound) (offset_steps power)
        both.0 both.1) }
{
    let enough = enough_for(bound);
    let k = power as u16;
    let all = power_worths(alloc, power)?;
    let worths = Worths {
        list: all.as_slice(),
        enough,
        target: two_to(power),
        most: full_size(coefs, k),
        keeps: true,
        top: k,
        k,
    };
    let helpers = helpers(alloc, missing(enough, k), k, spare)?;
    built(alloc, coefs, bound, &worths, helpers)
}

/// The built leaf of the flock atom with these coefficients, each 0 or -1, and this power, and a valid proof for it. It
/// has no helpers. No two moves of the leaf take the same states.
pub fn flock(alloc: Global, coefs: &[i64], power: u32) -> Result<(Leaf, LeafProof), NoMemory>
    requires { IsFlock coefs.now power }
    ensures { IfOk result
        (λ both. IsBuilt (flock_leaf_of coefs.now power) (flock_pred_of coefs.now power) flock_steps both.0 both.1) }
{
    offset_flock(alloc, coefs, bound_of_power(power), power, 0)
}
