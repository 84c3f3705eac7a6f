//! Which moves wake moves of earlier layers.
//!
//! Let t be a move of layer i that brings a state m, and u a move of an earlier layer that takes m and o. Then t
//! wakes u unless a move of a layer before i was enabled on the states that t takes and those of u that t doesn't
//! bring. It takes both states of t; or, where t doesn't bring o beside m, it takes o and a state of t.

ghost use Rattle.std.specs.Prelude.{◌≡◌, ◌<◌, ◌≤◌, length, Some};
ghost use Rattle.std.specs.List.{list_any, range_with_len};
ghost use Rattle.pop_leaf.specs.FirstFault.{first_below};
ghost use Rattle.pop_leaf.specs.LeafModel.{IsLeaf, IsMoveBelow};
ghost use Rattle.cert_layers.specs.Waking.{is_early, brings_state, brings_two_states, wakes_with_state};
ghost use Rattle.cert_layers.specs.Waking.{wakes_states, wakes_beside_state, may_wake_any};
ghost use Rattle.cert_layers.specs.Waking.{wakes_numbered, wakes_at, IsWakingTable, FindsFirst, FindsWaking};

use crate::pairs::PairTable;
use pop_net::{Leaf, Move, STATE_LIMIT};

/// The least move that wakes one of an earlier layer, and the least such move.
pub(crate) fn first_waking(
    leaf: &Leaf,
    layer_of_move: &[Option<u16>],
    table: &PairTable,
) -> Option<(u32, u32)>
    requires formed { IsLeaf leaf.now }
    requires long { length layer_of_move.now ≡ length leaf.now.moves }
    requires table { IsWakingTable leaf.now layer_of_move.now (length leaf.now.moves) table.now }
    ensures { FindsWaking leaf.now layer_of_move.now table.now result }
{
    for t in 0..leaf.move_count() {
        if let Some(u) = first_woken(leaf, layer_of_move, table, t) {
            return Some((t, u));
        }
    }
    None
}

/// The least move of an earlier layer that a move wakes.
fn first_woken(leaf: &Leaf, layer_of_move: &[Option<u16>], table: &PairTable, t: u32) -> Option<u32>
    requires formed { IsLeaf leaf.now }
    requires long { length layer_of_move.now ≡ length leaf.now.moves }
    requires table { IsWakingTable leaf.now layer_of_move.now (length leaf.now.moves) table.now }
    requires in_range { t < length leaf.now.moves }
    ensures { FindsFirst (wakes_at leaf.now layer_of_move.now table.now t) result }
{
    let taken = leaf.move_at(t);
    let layer = layer_of_move[t as usize]?;
    if taken.is_silent() {
        return None;
    }
    woken_in_layer(leaf, layer_of_move, table, layer, taken)
}

/// The same for a move of a layer.
fn woken_in_layer(
    leaf: &Leaf,
    layer_of_move: &[Option<u16>],
    table: &PairTable,
    layer: u16,
    taken: Move,
) -> Option<u32>
    requires formed { IsLeaf leaf.now }
    requires long { length layer_of_move.now ≡ length leaf.now.moves }
    requires table { IsWakingTable leaf.now layer_of_move.now (length leaf.now.moves) table.now }
    requires below { IsMoveBelow STATE_LIMIT taken }
    ensures { FindsFirst (wakes_numbered leaf.now layer_of_move.now table.now layer taken) result }
{
    if !may_wake(table, layer, taken, leaf.state_count()) {
        return None;
    }
    least_woken(leaf, layer_of_move, table, layer, taken)
}

fn least_woken(
    leaf: &Leaf,
    layer_of_move: &[Option<u16>],
    table: &PairTable,
    layer: u16,
    taken: Move,
) -> Option<u32>
    requires formed { IsLeaf leaf.now }
    requires long { length layer_of_move.now ≡ length leaf.now.moves }
    requires below { IsMoveBelow STATE_LIMIT taken }
    ensures { result
        ≡ first_below (length leaf.now.moves) (wakes_numbered leaf.now layer_of_move.now table.now layer taken) }
{
    (0..leaf.move_count()).find(|u| wakes_move(leaf, layer_of_move, table, layer, taken, *u))
}

/// Whether a move wakes an early move at all, by pairs of states alone. Before the first layer there are no moves.
fn may_wake(table: &PairTable, layer: u16, taken: Move, states: u16) -> bool
    requires below { IsMoveBelow STATE_LIMIT taken }
    requires states { states ≤ STATE_LIMIT }
    ensures { result ≡ may_wake_any (is_early table.now layer) taken states }
{
    if layer == 0 {
        return false;
    }
    !table.is_early(taken.p, taken.q, layer) && wakes_some(table, layer, taken, states)
}

fn wakes_some(table: &PairTable, layer: u16, taken: Move, states: u16) -> bool
    requires below { IsMoveBelow STATE_LIMIT taken }
    requires states { states ≤ STATE_LIMIT }
    ensures { result ≡ list_any (wakes_beside_state (is_early table.now layer) taken) (range_with_len 0 states) }
{
    (0..states).any(|y| wakes_beside(table, layer, taken, y))
}

/// Whether a move wakes an early move that takes `y` and a state that the move brings.
fn wakes_beside(table: &PairTable, layer: u16, taken: Move, y: u16) -> bool
    requires below { IsMoveBelow STATE_LIMIT taken }
    requires y_in { y < STATE_LIMIT }
    ensures { result ≡ wakes_beside_state (is_early table.now layer) taken y }
{
    (table.is_early(taken.r, y, layer) && wakes(table, layer, taken, taken.r, y))
        || (table.is_early(taken.s, y, layer) && wakes(table, layer, taken, taken.s, y))
}

/// Whether a move wakes a move of an earlier layer.
fn wakes_move(
    leaf: &Leaf,
    layer_of_move: &[Option<u16>],
    table: &PairTable,
    layer: u16,
    taken: Move,
    u: u32,
) -> bool
    requires formed { IsLeaf leaf.now }
    requires long { length layer_of_move.now ≡ length leaf.now.moves }
    requires below { IsMoveBelow STATE_LIMIT taken }
    requires in_range { u < length leaf.now.moves }
    ensures { result ≡ wakes_numbered leaf.now layer_of_move.now table.now layer taken u }
{
    let woken = leaf.move_at(u);
    match layer_of_move[u as usize] {
        None => false,
        Some(earlier) => {
            !woken.is_silent() && earlier < layer && wakes(table, layer, taken, woken.p, woken.q)
        }
    }
}

/// Whether a move wakes a move that takes two states.
fn wakes(table: &PairTable, layer: u16, taken: Move, x: u16, y: u16) -> bool
    requires below { IsMoveBelow STATE_LIMIT taken }
    requires x_in { x < STATE_LIMIT }
    requires y_in { y < STATE_LIMIT }
    ensures { result ≡ wakes_states (is_early table.now layer) taken x y }
{
    if brings(taken, x) {
        wakes_with(table, layer, taken, x, y)
    } else {
        brings(taken, y) && wakes_with(table, layer, taken, y, x)
    }
}

/// The same if the move brings the first state.
pub(crate) fn wakes_with(
    table: &PairTable,
    layer: u16,
    taken: Move,
    brought: u16,
    other: u16,
) -> bool
    requires below { IsMoveBelow STATE_LIMIT taken }
    requires other_in { other < STATE_LIMIT }
    ensures { result ≡ wakes_with_state (is_early table.now layer) taken brought other }
{
    let p_and_q = table.is_early(taken.p, taken.q, layer);
    let with_other = table.is_early(taken.p, other, layer) || table.is_early(taken.q, other, layer);
    !(p_and_q || (!brings_both(taken, brought, other) && with_other))
}

fn brings(taken: Move, x: u16) -> bool
    ensures { result ≡ brings_state taken x }
{
    x == taken.r || x == taken.s
}

/// Whether a move that brings a state brings the other beside it.
fn brings_both(taken: Move, brought: u16, other: u16) -> bool
    ensures { result ≡ brings_two_states taken brought other }
{
    if brought == taken.r {
        other == taken.s
    } else {
        other == taken.r
    }
}
