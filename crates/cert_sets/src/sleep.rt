//! Whether all moves that are to sleep in a set do.

ghost use Rattle.std.specs.Prelude.{◌≡◌, ◌<◌, ◌&&◌, not, length, slice_get};
ghost use Rattle.pop_leaf.specs.FirstFault.{first_below};
ghost use Rattle.pop_leaf.specs.LeafModel.{IsLeaf, IsMoveBelow, silent_move};
ghost use Rattle.cert_layers.specs.Waking.{FindsFirst};
ghost use Rattle.theory_sets.specs.Stays.{takes_within};
ghost use Rattle.cert_sets.specs.SetTests.{is_silent_move, wakes_awake, wakes_one, FindsWoken};

use crate::escape::{is_between, is_silent_at};
use crate::wake::{is_rest_in, may_wake, wakes};
use cert_traps::StateSet;
use pop_leaf::{Leaf, Move, STATE_LIMIT};

/// The least move between two agents of the set that isn't to sleep and wakes one that is, and the least that it wakes.
/// The moves that are to sleep are those of `awake`, which has all others silent.
pub(crate) fn first_woken(leaf: &Leaf, awake: &Leaf, members: &StateSet) -> Option<(u32, u32)>
    requires leaf_formed { IsLeaf leaf.now }
    requires formed { IsLeaf awake.now }
    requires states { length awake.now.states ≡ length leaf.now.states }
    requires moves { length awake.now.moves ≡ length leaf.now.moves }
    ensures { FindsWoken leaf.now awake.now members.now result }
{
    for t in 0..leaf.move_count() {
        if let Some(u) = woken_by(leaf, awake, members, t) {
            return Some((t, u));
        }
    }
    None
}

/// The least move that the move with this number wakes.
fn woken_by(leaf: &Leaf, awake: &Leaf, members: &StateSet, t: u32) -> Option<u32>
    requires leaf_formed { IsLeaf leaf.now }
    requires formed { IsLeaf awake.now }
    requires states { length awake.now.states ≡ length leaf.now.states }
    requires moves { length awake.now.moves ≡ length leaf.now.moves }
    requires in_range { t < length leaf.now.moves }
    ensures { FindsFirst (wakes_one leaf.now awake.now members.now t) result }
{
    let taken = leaf.move_at(t);
    if !is_waker(awake, members, taken, t) {
        return None;
    }
    woken_beside(awake, members, taken)
}

/// Whether the move with this number is between two agents of the set, not silent, and not to sleep.
fn is_waker(awake: &Leaf, members: &StateSet, taken: Move, t: u32) -> bool
    requires below { IsMoveBelow STATE_LIMIT taken }
    requires in_range { t < length awake.now.moves }
    ensures { result ≡ (not (silent_move taken)
        && (takes_within members.now taken && is_silent_move (slice_get awake.now.moves t))) }
{
    !taken.is_silent() && is_between(members, taken) && is_silent_at(awake, t)
}

/// The same for a move between two agents of the set that isn't to sleep.
fn woken_beside(awake: &Leaf, members: &StateSet, taken: Move) -> Option<u32>
    requires formed { IsLeaf awake.now }
    requires below { IsMoveBelow (length awake.now.states) taken }
    ensures { FindsFirst (wakes_awake awake.now members.now taken) result }
{
    if !may_wake(awake, taken) {
        return None;
    }
    least_woken(awake, members, taken)
}

fn least_woken(awake: &Leaf, members: &StateSet, taken: Move) -> Option<u32>
    requires formed { IsLeaf awake.now }
    requires below { IsMoveBelow (length awake.now.states) taken }
    ensures { result ≡ first_below (length awake.now.moves) (wakes_awake awake.now members.now taken) }
{
    (0..awake.move_count()).find(|u| wakes_move(awake, members, taken, *u))
}

fn wakes_move(awake: &Leaf, members: &StateSet, taken: Move, u: u32) -> bool
    requires formed { IsLeaf awake.now }
    requires below { IsMoveBelow (length awake.now.states) taken }
    requires in_range { u < length awake.now.moves }
    ensures { result ≡ wakes_awake awake.now members.now taken u }
{
    let woken = awake.move_at(u);
    !woken.is_silent()
        && wakes(awake, taken, woken.p, woken.q)
        && is_rest_in(members, taken, woken.p, woken.q)
}
