//! The leaf.

ghost use Rattle.std.specs.Prelude.{◌≡◌, ◌≤◌, map, nat_abs, All, IfOk};
ghost use Rattle.std.specs.List.{range_with_len};
ghost use Rattle.pop_leaf.specs.LeafModel.{IsLeaf};
ghost use Rattle.comp_trees.specs.DefinedLeaf.{HasInputs, IsDefined};
ghost use Rattle.comp_threshold.specs.ThresholdLeaf.{threshold_width, place_of_value, threshold_output};
ghost use Rattle.comp_threshold.specs.ThresholdLeaf.{threshold_state_count, built, threshold_leaf_of};

use crate::listing::moves;
use crate::naming::names;
use crate::narrow::Width;
use crate::values::{place, span};
use pop_io::{List, NoMemory};
use pop_leaf::Leaf;
use std::alloc::Global;

/// A state's output, with the bound at place t. Allocates nothing.
pub(crate) fn output(width: Width, t: u16, q: u16) -> bool
    ensures { result ≡ threshold_output width.number t q }
{
    let n = span(width);
    if q < n { q < t } else { !(q < n + n) }
}

fn outputs(alloc: Global, width: Width, t: u16) -> Result<Vec<bool>, NoMemory>
    ensures { IfOk result (λ outputs.
        outputs.items ≡ map (threshold_output width.number t)
        (range_with_len 0 (threshold_state_count width.number))) }
{
    let outputs = (0..3 * span(width))
        .map(|q| output(width, t, q))
        .collect(alloc)?;
    Ok(outputs)
}

fn inputs(alloc: Global, width: Width, coefs: &[i64]) -> Result<Vec<u16>, NoMemory>
    requires within { All (λ a. nat_abs a ≤ width.number) coefs.now }
    ensures { IfOk result (λ inputs. inputs.items ≡ map (place_of_value width.number) coefs.now) }
{
    let mut inputs = Vec::new(alloc);
    for a in coefs {
        inputs.push(place(width, *a))?;
    }
    Ok(inputs)
}

/// The leaf, which must be well formed.
fn built_leaf(alloc: Global, width: Width, t: u16, coefs: &[i64]) -> Result<Leaf, NoMemory>
    requires within { All (λ a. nat_abs a ≤ width.number) coefs.now }
    requires formed { IsLeaf (built width.number t (map (place_of_value width.number) coefs.now)) }
    ensures { IfOk result (λ leaf. leaf ≡ built width.number t (map (place_of_value width.number) coefs.now)) }
{
    let names = names(alloc, width)?;
    let moves = List::from_vec(moves(alloc, width, t)?);
    let inputs = List::from_vec(inputs(alloc, width, coefs)?);
    let outputs = List::from_vec(outputs(alloc, width, t)?);
    let helpers = List::from_vec(Vec::new(alloc));
    Leaf::of_valid(alloc, names, moves, inputs, outputs, helpers)
}

/// The built leaf of these coefficients and this bound, which have this width.
pub(crate) fn threshold_leaf(
    alloc: Global,
    coefs: &[i64],
    bound: i64,
    width: Width,
) -> Result<Leaf, NoMemory>
    requires exact { width.number ≡ threshold_width coefs.now bound }
    requires inputs { HasInputs coefs.now }
    ensures { IfOk result (IsDefined (threshold_leaf_of coefs.now bound)) }
{
    let t = place(width, bound);
    built_leaf(alloc, width, t, coefs)
}
