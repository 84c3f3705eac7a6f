//! Which moves a move between two agents of a set wakes there.
//!
//! The moves that are to sleep are those of a leaf of their own, `awake`, in which all others are silent. Two states
//! can meet there exactly if one of these moves takes them.

ghost use Rattle.std.specs.Prelude.{◌≡◌, ◌<◌, length};
ghost use Rattle.std.specs.List.{list_any, range_with_len};
ghost use Rattle.pop_leaf.specs.LeafModel.{IsLeaf, IsMoveBelow};
ghost use Rattle.cert_base.specs.FactsAndCases.{can_meet_in};
ghost use Rattle.cert_layers.specs.Waking.{brings_state, brings_two_states, wakes_with_state};
ghost use Rattle.cert_layers.specs.Waking.{wakes_states, wakes_beside_state, may_wake_any};
ghost use Rattle.cert_sets.specs.SetTests.{is_other_within, is_rest_within};

use cert_base::can_meet;
use cert_traps::StateSet;
use pop_leaf::{Leaf, Move, STATE_LIMIT};

/// Whether a move wakes one at all, by pairs of states alone.
pub(crate) fn may_wake(awake: &Leaf, taken: Move) -> bool
    requires formed { IsLeaf awake.now }
    requires below { IsMoveBelow (length awake.now.states) taken }
    ensures { result ≡ may_wake_any (can_meet_in awake.now) taken (length awake.now.states) }
{
    !can_meet(awake, taken.p, taken.q) && wakes_some(awake, taken)
}

fn wakes_some(awake: &Leaf, taken: Move) -> bool
    requires formed { IsLeaf awake.now }
    requires below { IsMoveBelow (length awake.now.states) taken }
    ensures { result
        ≡ list_any (wakes_beside_state (can_meet_in awake.now) taken) (range_with_len 0 (length awake.now.states)) }
{
    (0..awake.state_count()).any(|y| wakes_beside(awake, taken, y))
}

/// Whether a move wakes one that takes `y` and a state that the move brings.
fn wakes_beside(awake: &Leaf, taken: Move, y: u16) -> bool
    requires below { IsMoveBelow (length awake.now.states) taken }
    requires y_in { y < length awake.now.states }
    ensures { result ≡ wakes_beside_state (can_meet_in awake.now) taken y }
{
    (can_meet(awake, taken.r, y) && wakes(awake, taken, taken.r, y))
        || (can_meet(awake, taken.s, y) && wakes(awake, taken, taken.s, y))
}

/// Whether a move wakes one that takes two states.
pub(crate) fn wakes(awake: &Leaf, taken: Move, x: u16, y: u16) -> bool
    requires below { IsMoveBelow (length awake.now.states) taken }
    requires x_in { x < length awake.now.states }
    requires y_in { y < length awake.now.states }
    ensures { result ≡ wakes_states (can_meet_in awake.now) taken x y }
{
    if brings(taken, x) {
        wakes_with(awake, taken, x, y)
    } else {
        brings(taken, y) && wakes_with(awake, taken, y, x)
    }
}

/// The same if the move brings the first state.
fn wakes_with(awake: &Leaf, taken: Move, brought: u16, other: u16) -> bool
    requires below { IsMoveBelow (length awake.now.states) taken }
    requires other_in { other < length awake.now.states }
    ensures { result ≡ wakes_with_state (can_meet_in awake.now) taken brought other }
{
    let p_and_q = can_meet(awake, taken.p, taken.q);
    let with_other = can_meet(awake, taken.p, other) || can_meet(awake, taken.q, other);
    !(p_and_q || (!brings_both(taken, brought, other) && with_other))
}

fn brings(taken: Move, x: u16) -> bool
    ensures { result ≡ brings_state taken x }
{
    x == taken.r || x == taken.s
}

/// Whether a move that brings a state brings the other beside it.
fn brings_both(taken: Move, brought: u16, other: u16) -> bool
    ensures { result ≡ brings_two_states taken brought other }
{
    if brought == taken.r {
        other == taken.s
    } else {
        other == taken.r
    }
}

/// Whether of two states, one of which the move brings, the other is brought too or in the set.
pub(crate) fn is_rest_in(members: &StateSet, taken: Move, x: u16, y: u16) -> bool
    requires x_in { x < STATE_LIMIT }
    requires y_in { y < STATE_LIMIT }
    ensures { result ≡ is_rest_within members.now taken x y }
{
    if brings(taken, x) {
        is_other_in(members, taken, x, y)
    } else {
        is_other_in(members, taken, y, x)
    }
}

fn is_other_in(members: &StateSet, taken: Move, brought: u16, other: u16) -> bool
    requires { other < STATE_LIMIT }
    ensures { result ≡ is_other_within members.now taken brought other }
{
    brings_both(taken, brought, other) || members.contains(other)
}
