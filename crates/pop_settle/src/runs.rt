//! Runs of moves with the same first state.

ghost use Rattle.std.specs.Prelude.{◌≡◌, ℕ, ◌+◌, ◌<◌, length, All, Some, IfOk, IsTrue, slice_get};
ghost use Rattle.pop_leaf.specs.declared.leaf.Move.{Move};
ghost use Rattle.pop_settle.specs.Search.{AreRunEnds, IsStretch};

use pop_io::NoMemory;
use pop_net::Leaf;
use std::alloc::Global;

/// For each place of a list of moves, a later place up to which all moves have the same first state.
pub(crate) fn run_ends(alloc: Global, leaf: &Leaf, moves: &[u32]) -> Result<Vec<usize>, NoMemory>
    requires { All (λ step. step < length leaf.now.moves) moves.now }
    ensures { IfOk result (λ ends. AreRunEnds leaf.now moves.now ends.items) }
{
    let mut ends = vec![in alloc; 0usize; moves.len()]?;
    for i in 0..moves.len() {
        let place = moves.len() - 1 - i;
        let end = run_end(leaf, moves, ends.as_slice(), place);
        ends[place] = end;
    }
    Ok(ends)
}

/// The end for a place, by that of the next place.
fn run_end(leaf: &Leaf, moves: &[u32], ends: &[usize], place: usize) -> usize
    requires in_range { All (λ step. step < length leaf.now.moves) moves.now }
    requires place_in { place < length moves.now }
    requires long { length ends.now ≡ length moves.now }
    requires behind { (end : ℕ) → slice_get ends.now (place + 1) ≡ Some end
        → IsStretch leaf.now moves.now (place + 1) end }
    ensures { IsStretch leaf.now moves.now place result }
{
    let next = place + 1;
    if next < moves.len() && begin_alike(leaf, moves[place], moves[next]) {
        ends[next]
    } else {
        next
    }
}

/// Whether two moves have the same first state.
fn begin_alike(leaf: &Leaf, one: u32, other: u32) -> bool
    requires one_in { one < length leaf.now.moves }
    requires other_in { other < length leaf.now.moves }
    ensures { IsTrue result → (t t' : Move) → slice_get leaf.now.moves one ≡ Some t
        → slice_get leaf.now.moves other ≡ Some t' → t'.p ≡ t.p }
{
    leaf.move_at(one).p == leaf.move_at(other).p
}
