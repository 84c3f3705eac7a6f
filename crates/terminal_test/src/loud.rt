//! The pairs of states that react in a leaf.

ghost use Rattle.std.specs.Prelude.{◌≡◌, [], ◌∷◌, ◌++◌, IfOk, OnOk};
ghost use Rattle.terminal_test.specs.Loud.{pairs_of_moves};

use pop_io::{List, NoMemory};
use pop_net::{Leaf, Move};
use std::alloc::Global;

/// The two states of each non-silent move.
pub(crate) fn loud_pairs(alloc: Global, leaf: &Leaf) -> Result<List<(u16, u16)>, NoMemory>
    ensures { IfOk result (λ pairs. pairs ≡ pairs_of_moves leaf.now.moves) }
{
    let mut pairs = Vec::new(alloc);
    for t in 0..leaf.move_count() {
        push_loud(&mut pairs, leaf.move_at(t))?;
    }
    Ok(List::from_vec(pairs))
}

/// Adds the states of a move, unless it is silent.
fn push_loud(pairs: &mut Vec<(u16, u16)>, taken: Move) -> Result<(), NoMemory>
    ensures { OnOk result (pairs.new.items ≡ pairs.old.items ++ pairs_of_moves (taken ∷ [])) }
{
    if !taken.is_silent() {
        pairs.push((taken.p, taken.q))?;
    }
    Ok(())
}
