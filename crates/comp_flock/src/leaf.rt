//! The whole leaf.

ghost use Rattle.std.specs.Prelude.{◌≡◌, IfOk};
ghost use Rattle.comp_trees.specs.DefinedLeaf.{IsDefined};
ghost use Rattle.comp_counting.specs.FlockAtoms.{says_enough as says_of, enough_for};
ghost use Rattle.comp_flock.specs.CountLeaf.{count_leaf as leaf_of};
ghost use Rattle.comp_flock.specs.Covered.{IsCovered};

use crate::listing::moves;
use crate::naming::names;
use crate::worths::Worths;
use comp_counting::{inputs, outputs, says_enough};
use pop_io::{List, NoMemory};
use pop_leaf::Leaf;
use std::alloc::Global;

/// The leaf of the atom with these numbers, whose states are worth this, with these helpers.
pub(crate) fn count_leaf(
    alloc: Global,
    coefs: &[i64],
    bound: i64,
    worths: &Worths<'_>,
    helpers: Vec<u16>,
) -> Result<Leaf, NoMemory>
    requires covered { IsCovered coefs.now bound worths.now.keeps worths.now.target worths.now.most worths.now.list.now
        worths.now.top worths.now.k helpers.items }
    requires enough { worths.now.enough ≡ enough_for bound }
    ensures { IfOk result (IsDefined
        (leaf_of coefs.now (says_of bound) (enough_for bound) worths.now.keeps worths.now.target worths.now.list.now
        worths.now.k helpers.items)) }
{
    let names = names(alloc, worths)?;
    let moves = List::from_vec(moves(alloc, worths)?);
    let inputs = List::from_vec(inputs(alloc, worths.enough, worths.k, coefs)?);
    let outputs = List::from_vec(outputs(alloc, says_enough(bound), worths.k)?);
    let helpers = List::from_vec(helpers);
    Leaf::of_valid(alloc, names, moves, inputs, outputs, helpers)
}
