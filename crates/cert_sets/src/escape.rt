//! The moves that lead out of a set.

ghost use Rattle.std.specs.Prelude.{◌≡◌, ◌<◌, length, slice_get, IfOk};
ghost use Rattle.pop_leaf.specs.FirstFault.{first_below};
ghost use Rattle.pop_leaf.specs.LeafModel.{IsLeaf, IsMoveBelow};
ghost use Rattle.cert_layers.specs.Search.{some_move};
ghost use Rattle.theory_sets.specs.Stays.{takes_within, leads_out, escapes};
ghost use Rattle.cert_sets.specs.SetTests.{is_silent_move, is_unguarded};

use cert_traps::StateSet;
use pop_io::NoMemory;
use pop_leaf::{Leaf, Move, STATE_LIMIT};
use std::alloc::Global;

/// The numbers of the moves that take two states of the set and put one outside.
pub(crate) fn escapes_of(
    alloc: Global,
    leaf: &Leaf,
    members: &StateSet,
) -> Result<Vec<u32>, NoMemory>
    requires { IsLeaf leaf.now }
    ensures { IfOk result (λ numbers. numbers.items ≡ escapes leaf.now members.now) }
{
    let numbers = (0..leaf.move_count())
        .filter(|t| is_escape(leaf, members, *t))
        .collect(alloc)?;
    Ok(numbers)
}

/// The least of them that is silent among the kept moves.
pub(crate) fn first_unguarded(leaf: &Leaf, kept: &Leaf, members: &StateSet) -> Option<u32>
    requires formed { IsLeaf leaf.now }
    requires same { length kept.now.moves ≡ length leaf.now.moves }
    ensures { result ≡ first_below (length leaf.now.moves) (is_unguarded leaf.now kept.now members.now) }
{
    (0..leaf.move_count()).find(|t| is_unguarded_at(leaf, kept, members, *t))
}

fn is_unguarded_at(leaf: &Leaf, kept: &Leaf, members: &StateSet, t: u32) -> bool
    requires formed { IsLeaf leaf.now }
    requires same { length kept.now.moves ≡ length leaf.now.moves }
    requires in_range { t < length leaf.now.moves }
    ensures { result ≡ is_unguarded leaf.now kept.now members.now t }
{
    let taken = leaf.move_at(t);
    !taken.is_silent() && leads_out_of(members, taken) && is_silent_at(kept, t)
}

/// Whether the move with this number is silent.
pub(crate) fn is_silent_at(leaf: &Leaf, t: u32) -> bool
    requires { t < length leaf.now.moves }
    ensures { result ≡ is_silent_move (slice_get leaf.now.moves t) }
{
    leaf.move_at(t).is_silent()
}

/// Whether a move takes two states of the set.
pub(crate) fn is_between(members: &StateSet, taken: Move) -> bool
    requires { IsMoveBelow STATE_LIMIT taken }
    ensures { result ≡ takes_within members.now taken }
{
    members.contains(taken.p) && members.contains(taken.q)
}

/// Whether the move with this number leads out of the set.
fn is_escape(leaf: &Leaf, members: &StateSet, t: u32) -> bool
    requires formed { IsLeaf leaf.now }
    requires in_range { t < length leaf.now.moves }
    ensures { result ≡ some_move (leads_out members.now) (slice_get leaf.now.moves t) }
{
    let taken = leaf.move_at(t);
    !taken.is_silent() && leads_out_of(members, taken)
}

fn leads_out_of(members: &StateSet, taken: Move) -> bool
    requires { IsMoveBelow STATE_LIMIT taken }
    ensures { result ≡ leads_out members.now taken }
{
    is_between(members, taken) && !(members.contains(taken.r) && members.contains(taken.s))
}
