//! The whole leaf.

ghost use Rattle.std.specs.Prelude.{◌≡◌, ◌≤◌, map, replicate, IfOk};
ghost use Rattle.std.specs.List.{range_with_len};
ghost use Rattle.comp_trees.specs.DefinedLeaf.{HasInputs, IsDefined};
ghost use Rattle.comp_remainder.specs.RemainderLeaf.{residue_of, remainder_state_count, remainder_output};
ghost use Rattle.comp_remainder.specs.RemainderLeaf.{remainder_leaf_of};

use crate::listing::moves;
use crate::modulus::Modulus;
use crate::naming::names;
use pop_io::{List, NoMemory};
use pop_leaf::{HELPER_LIMIT, Leaf};
use std::alloc::Global;

/// What an agent in a state answers.
pub(crate) fn output(modulus: Modulus, rest: u16, q: u16) -> bool
    ensures { result ≡ remainder_output modulus.number rest q }
{
    let modulus = modulus.number;
    if q < modulus {
        q == rest
    } else {
        q == modulus + 1
    }
}

fn outputs(alloc: Global, modulus: Modulus, rest: u16) -> Result<Vec<bool>, NoMemory>
    ensures { IfOk result
        (λ outputs.
        outputs.items ≡ map (remainder_output modulus.number rest) (range_with_len 0 (remainder_state_count modulus.number))) }
{
    let outputs = (0..modulus.number + 2)
        .map(|q| output(modulus, rest, q))
        .collect(alloc)?;
    Ok(outputs)
}

/// The leader that stands for one agent of a variable.
fn residue(modulus: Modulus, coef: i64) -> u16
    ensures { result ≡ residue_of modulus.number coef }
{
    coef.rem_euclid(i64::from(modulus.number)).unsigned_abs() as u16
}

fn inputs(alloc: Global, modulus: Modulus, coefs: &[i64]) -> Result<Vec<u16>, NoMemory>
    ensures { IfOk result (λ inputs. inputs.items ≡ map (residue_of modulus.number) coefs.now) }
{
    let mut inputs = Vec::new(alloc);
    for coef in coefs {
        inputs.push(residue(modulus, *coef))?;
    }
    Ok(inputs)
}

/// Leaders of the remainder 0.
fn spare_leaders(alloc: Global, spare: u32) -> Result<Vec<u16>, NoMemory>
    ensures { IfOk result (λ helpers. helpers.items ≡ replicate spare 0) }
{
    Ok(vec![in alloc; 0u16; spare as usize]?)
}

/// The leaf of `Rest` with these numbers and this many spare helpers.
pub(crate) fn remainder_leaf(
    alloc: Global,
    coefs: &[i64],
    modulus: Modulus,
    rest: u16,
    spare: u32,
) -> Result<Leaf, NoMemory>
    requires inputs { HasInputs coefs.now }
    requires spare { spare ≤ HELPER_LIMIT }
    ensures { IfOk result (IsDefined (remainder_leaf_of coefs.now modulus.number rest spare)) }
{
    let names = names(alloc, modulus)?;
    let moves = List::from_vec(moves(alloc, modulus, rest)?);
    let inputs = List::from_vec(inputs(alloc, modulus, coefs)?);
    let outputs = List::from_vec(outputs(alloc, modulus, rest)?);
    let helpers = List::from_vec(spare_leaders(alloc, spare)?);
    Leaf::of_valid(alloc, names, moves, inputs, outputs, helpers)
}
