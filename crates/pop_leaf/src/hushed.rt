//! The hushed leaf.

ghost use Rattle.std.specs.Prelude.{◌≡◌, length, IfOk};
ghost use Rattle.pop_leaf.specs.Hushed.{hush_unless, hushed_moves, hushed};
ghost use Rattle.pop_leaf.specs.Marks.{AreMarks};

use crate::leaf::{Leaf, Move};
use crate::marks::marks_of;
use crate::parts::{helpers_of, inputs_of, outputs_of, states_of};
use pop_io::{List, NoMemory};
use std::alloc::Global;

/// The leaf in which the moves with these numbers are kept and every other move is silent. Numbers past the last move
/// keep nothing.
pub fn hushed_leaf(alloc: Global, leaf: &Leaf, kept: &[u32]) -> Result<Leaf, NoMemory>
    ensures { IfOk result (λ made. made ≡ hushed leaf.now kept.now) }
{
    // What the invariant says is known from here on.
    let _formed = leaf.state_count();
    let marks = marks_of(alloc, leaf.move_count(), kept)?;
    let moves = moves_of(alloc, leaf, kept, marks.as_slice())?;
    Leaf::of_valid(
        alloc,
        states_of(alloc, leaf)?,
        moves,
        inputs_of(alloc, leaf)?,
        outputs_of(alloc, leaf)?,
        helpers_of(alloc, leaf)?,
    )
}

/// The moves, silent where no mark is.
fn moves_of(
    alloc: Global,
    leaf: &Leaf,
    kept: &[u32],
    marks: &[bool],
) -> Result<List<Move>, NoMemory>
    requires { AreMarks (length leaf.now.moves) kept.now marks.now }
    ensures { IfOk result (λ moves. moves ≡ hushed_moves kept.now 0 leaf.now.moves) }
{
    let mut moves = Vec::new(alloc);
    for t in 0..leaf.move_count() {
        moves.push(hush_if_unmarked(marks[t as usize], leaf.move_at(t)))?;
    }
    Ok(List::from_vec(moves))
}

fn hush_if_unmarked(keep: bool, taken: Move) -> Move
    ensures { result ≡ hush_unless keep taken }
{
    if keep {
        return taken;
    }
    Move {
        p: taken.p,
        q: taken.q,
        r: taken.p,
        s: taken.q,
    }
}
