//! Copies of lists of leaves.

ghost use Rattle.std.specs.Prelude.{◌≡◌, IfOk};

use pop_io::{List, NoMemory};
use pop_leaf::Leaf;
use std::alloc::Global;

pub(crate) fn copy_leaves(alloc: Global, leaves: &[Leaf]) -> Result<List<Leaf>, NoMemory>
    ensures { IfOk result (λ list. list ≡ leaves.now) }
{
    let mut copies = Vec::with_capacity(alloc, leaves.len())?;
    for leaf in leaves {
        copies.push(leaf.copy(alloc)?)?;
    }
    Ok(List::from_vec(copies))
}
