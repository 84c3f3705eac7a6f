//! Whether the layers of a leaf are tame: while the moves of a layer die out, no later move raises its weights, and what
//! is dead stays dead.

ghost use Rattle.std.specs.Prelude.{◌≡◌, ◌<◌, ◌≤◌, Decides, IfOk, length};
ghost use Rattle.std.specs.List.{list_any};
ghost use Rattle.pop_leaf.specs.LeafModel.{IsLeaf, IsMoveBelow};
ghost use Rattle.cert_layers.specs.LayerFaults.{AreBrokenFirst, AreLayersWithin};
ghost use Rattle.pop_io.specs.Failures.{IfFault};
ghost use Rattle.cert_layers.specs.MoveLayers.{AreMoveLayers};
ghost use Rattle.cert_layers.specs.Waking.{IsWakingTable, is_early};
ghost use Rattle.cert_layers.specs.TameWork.{AreTameInTime};
ghost use Rattle.cert_layers.specs.TameTest.{wakes_low_state, wakes_low_beside, wakes_low, stands};
ghost use Rattle.cert_layers.specs.TameTest.{apart_states, apart_moves, is_beside, raises_layer, raises};
ghost use Rattle.cert_layers.specs.TameTest.{fights_in, fights, any_fights};

use crate::fault::LayerWhy;
use crate::lower::{is_higher, is_lower};
use crate::move_layers::layers_of_moves;
use crate::pairs::{PairTable, pair_table};
use crate::waking::wakes_with;
use crate::work::is_work_within;
use cert_base::Layer;
use pop_io::{Failure, List};
use pop_net::{Leaf, Move, STATE_LIMIT};
use std::alloc::Global;

/// Whether the layers of a leaf are tame, and the work of telling that is within `TAME_WORK_LIMIT`. Where they are tame,
/// the expected number of random meetings until no move is left is at most cubic in the number of agents
/// (`tame_layers_are_cubic`).
pub fn is_tame(alloc: Global, leaf: &Leaf, layers: &List<Layer>) -> Result<bool, Failure<LayerWhy>>
    requires { AreLayersWithin layers.now }
    ensures tame { IfOk result (λ tame. Decides tame (AreTameInTime leaf.now layers.now)) }
    ensures fault { IfFault result (AreBrokenFirst leaf.now layers.now) }
{
    tested(alloc, leaf, layers.as_slice())
}

fn tested(alloc: Global, leaf: &Leaf, layers: &[Layer]) -> Result<bool, Failure<LayerWhy>>
    requires { AreLayersWithin layers.now }
    ensures tame { IfOk result (λ tame. Decides tame (AreTameInTime leaf.now layers.now)) }
    ensures fault { IfFault result (AreBrokenFirst leaf.now layers.now) }
{
    let layer_of_move = layers_of_moves(alloc, leaf, layers)?;
    let table = pair_table(alloc, leaf, layer_of_move.as_slice())?;
    Ok(are_tame(leaf, layers, layer_of_move.as_slice(), &table))
}

fn are_tame(leaf: &Leaf, layers: &[Layer], layer_of_move: &[Option<u16>], table: &PairTable) -> bool
    requires formed { IsLeaf leaf.now }
    requires within { AreLayersWithin layers.now }
    requires placed { AreMoveLayers leaf.now layers.now layer_of_move.now }
    requires table { IsWakingTable leaf.now layer_of_move.now (length leaf.now.moves) table.now }
    ensures { Decides result (AreTameInTime leaf.now layers.now) }
{
    is_work_within(leaf, layers) && !some_fight(leaf, layers, layer_of_move, table)
}

fn some_fight(
    leaf: &Leaf,
    layers: &[Layer],
    layer_of_move: &[Option<u16>],
    table: &PairTable,
) -> bool
    requires formed { IsLeaf leaf.now }
    requires within { AreLayersWithin layers.now }
    requires placed { AreMoveLayers leaf.now layers.now layer_of_move.now }
    requires table { IsWakingTable leaf.now layer_of_move.now (length leaf.now.moves) table.now }
    ensures { result ≡ any_fights leaf.now layers.now layer_of_move.now table.now }
{
    (0..leaf.move_count()).any(|n| fights(leaf, layers, layer_of_move, table, n))
}

fn fights(
    leaf: &Leaf,
    layers: &[Layer],
    layer_of_move: &[Option<u16>],
    table: &PairTable,
    n: u32,
) -> bool
    requires formed { IsLeaf leaf.now }
    requires within { AreLayersWithin layers.now }
    requires placed { AreMoveLayers leaf.now layers.now layer_of_move.now }
    requires in_range { n < length leaf.now.moves }
    ensures { result ≡ fights leaf.now layers.now layer_of_move.now table.now n }
{
    let taken = leaf.move_at(n);
    match layer_of_move[n as usize] {
        None => false,
        Some(layer) => {
            !taken.is_silent() && fights_in(leaf, layers, layer_of_move, table, layer, taken)
        }
    }
}

fn fights_in(
    leaf: &Leaf,
    layers: &[Layer],
    layer_of_move: &[Option<u16>],
    table: &PairTable,
    layer: u16,
    taken: Move,
) -> bool
    requires formed { IsLeaf leaf.now }
    requires within { AreLayersWithin layers.now }
    requires placed { AreMoveLayers leaf.now layers.now layer_of_move.now }
    requires there { layer < length layers.now }
    requires below { IsMoveBelow (length leaf.now.states) taken }
    ensures { result ≡ fights_in leaf.now layers.now layer_of_move.now table.now layer taken }
{
    wakes_low(table, layer, taken, leaf.state_count())
        || stands(leaf, layers, layer_of_move, table, layer, taken)
        || raises(leaf, layers, layer_of_move, table, layer, taken)
}

/// Whether a move enables one of an earlier layer while none up to that layer is enabled.
fn wakes_low(table: &PairTable, layer: u16, taken: Move, states: u16) -> bool
    requires below { IsMoveBelow STATE_LIMIT taken }
    requires states { states ≤ STATE_LIMIT }
    ensures { result ≡ wakes_low table.now layer taken states }
{
    (0..states).any(|y| wakes_low_beside(table, layer, taken, y))
}

fn wakes_low_beside(table: &PairTable, layer: u16, taken: Move, y: u16) -> bool
    requires below { IsMoveBelow STATE_LIMIT taken }
    requires y_in { y < STATE_LIMIT }
    ensures { result ≡ wakes_low_beside table.now layer taken y }
{
    wakes_low_state(table, layer, taken, taken.r, y)
        || wakes_low_state(table, layer, taken, taken.s, y)
}

fn wakes_low_state(table: &PairTable, layer: u16, taken: Move, brought: u16, y: u16) -> bool
    requires below { IsMoveBelow STATE_LIMIT taken }
    requires brought_in { brought < STATE_LIMIT }
    requires y_in { y < STATE_LIMIT }
    ensures { result ≡ wakes_low_state table.now layer taken brought y }
{
    let first = table.first(brought, y);
    first < layer && wakes_with(table, first + 1, taken, brought, y)
}

/// Whether a move takes the states of an earlier layer's move, and doesn't lower the weights of the first such layer.
fn stands(
    leaf: &Leaf,
    layers: &[Layer],
    layer_of_move: &[Option<u16>],
    table: &PairTable,
    layer: u16,
    taken: Move,
) -> bool
    requires formed { IsLeaf leaf.now }
    requires within { AreLayersWithin layers.now }
    requires placed { AreMoveLayers leaf.now layers.now layer_of_move.now }
    requires there { layer < length layers.now }
    requires below { IsMoveBelow (length leaf.now.states) taken }
    ensures { result ≡ stands layers.now table.now layer taken }
{
    let first = table.first(taken.p, taken.q);
    first < layer && !is_lower(layers[first as usize].weights.as_slice(), taken)
}

/// Whether a move raises the weights of an earlier layer beside a move of it.
fn raises(
    leaf: &Leaf,
    layers: &[Layer],
    layer_of_move: &[Option<u16>],
    table: &PairTable,
    layer: u16,
    taken: Move,
) -> bool
    requires formed { IsLeaf leaf.now }
    requires within { AreLayersWithin layers.now }
    requires placed { AreMoveLayers leaf.now layers.now layer_of_move.now }
    requires there { layer < length layers.now }
    requires below { IsMoveBelow (length leaf.now.states) taken }
    ensures { result ≡ raises leaf.now layers.now layer_of_move.now table.now layer taken }
{
    (0..layer).any(|i| raises_layer(leaf, layers, layer_of_move, table, taken, i))
}

fn raises_layer(
    leaf: &Leaf,
    layers: &[Layer],
    layer_of_move: &[Option<u16>],
    table: &PairTable,
    taken: Move,
    i: u16,
) -> bool
    requires formed { IsLeaf leaf.now }
    requires within { AreLayersWithin layers.now }
    requires placed { AreMoveLayers leaf.now layers.now layer_of_move.now }
    requires there { i < length layers.now }
    requires below { IsMoveBelow (length leaf.now.states) taken }
    ensures { result ≡ raises_layer leaf.now layers.now layer_of_move.now table.now taken i }
{
    is_higher(layers[i as usize].weights.as_slice(), taken)
        && some_beside(
            leaf,
            layers[i as usize].moves.as_slice(),
            layer_of_move,
            table,
            i,
            taken,
        )
}

fn some_beside(
    leaf: &Leaf,
    own: &[u32],
    layer_of_move: &[Option<u16>],
    table: &PairTable,
    i: u16,
    taken: Move,
) -> bool
    requires formed { IsLeaf leaf.now }
    requires long { length layer_of_move.now ≡ length leaf.now.moves }
    requires below { IsMoveBelow STATE_LIMIT taken }
    ensures { result ≡ list_any (is_beside leaf.now layer_of_move.now table.now i taken) own.now }
{
    own.iter()
        .any(|n| is_beside(leaf, layer_of_move, table, i, taken, *n))
}

/// Whether a move is of a layer, and may be enabled where another one is and no move before the layer.
fn is_beside(
    leaf: &Leaf,
    layer_of_move: &[Option<u16>],
    table: &PairTable,
    i: u16,
    taken: Move,
    n: u32,
) -> bool
    requires formed { IsLeaf leaf.now }
    requires long { length layer_of_move.now ≡ length leaf.now.moves }
    requires below { IsMoveBelow STATE_LIMIT taken }
    ensures { result ≡ is_beside leaf.now layer_of_move.now table.now i taken n }
{
    if leaf.move_count() <= n {
        return false;
    }
    let own = leaf.move_at(n);
    match layer_of_move[n as usize] {
        None => false,
        Some(layer) => !own.is_silent() && layer == i && !are_apart(table, i, own, taken),
    }
}

/// Whether a move before a layer is enabled wherever two moves are.
fn are_apart(table: &PairTable, layer: u16, own: Move, other: Move) -> bool
    requires own { IsMoveBelow STATE_LIMIT own }
    requires other { IsMoveBelow STATE_LIMIT other }
    ensures { result ≡ apart_moves (is_early table.now layer) own other }
{
    (table.is_early(own.p, own.q, layer) || table.is_early(other.p, other.q, layer))
        || ((differ(table, layer, own.p, other.p) || differ(table, layer, own.p, other.q))
            || (differ(table, layer, own.q, other.p) || differ(table, layer, own.q, other.q)))
}

/// Whether a move before a layer takes two states that differ.
fn differ(table: &PairTable, layer: u16, x: u16, y: u16) -> bool
    requires x_in { x < STATE_LIMIT }
    requires y_in { y < STATE_LIMIT }
    ensures { result ≡ apart_states (is_early table.now layer) x y }
{
    x != y && table.is_early(x, y, layer)
}
