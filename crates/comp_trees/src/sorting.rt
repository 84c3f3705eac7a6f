//! The layers by the kinds of moves.

ghost use Rattle.std.specs.Prelude.{◌≡◌, ◌++◌, ◌∷◌, [], ◌==◌, if◌then◌else◌, IfOk, OnOk};
ghost use Rattle.comp_trees.specs.SortedLayers.{leader_kind, sorted_layer};

use cert_base::Layer;
use pop_io::{List, NoMemory};
use pop_leaf::{Leaf, Move};
use std::alloc::Global;

/// The kind of a move, with this many leaders.
fn kind_of(leaders: u16, t: Move) -> u32
    ensures { result ≡ leader_kind leaders t }
{
    if t.q < leaders {
        0
    } else if t.r == t.p {
        if t.q < t.s { 1 } else { 2 }
    } else {
        0
    }
}

/// The layer of one kind of moves.
pub fn layer(
    alloc: Global,
    leaf: &Leaf,
    leaders: u16,
    kind: u32,
    weights: Vec<i64>,
) -> Result<Layer, NoMemory>
    ensures { IfOk result (λ layer. layer ≡ sorted_layer leaf.now.moves (leader_kind leaders) kind weights.items) }
{
    let mut moves = Vec::new(alloc);
    for t in 0..leaf.move_count() {
        let passes = kind_of(leaders, leaf.move_at(t)) == kind;
        push_if(&mut moves, t, passes)?;
    }
    Ok(Layer {
        moves: List::from_vec(moves),
        weights: List::from_vec(weights),
    })
}

fn push_if(numbers: &mut Vec<u32>, number: u32, passes: bool) -> Result<(), NoMemory>
    ensures { OnOk result (numbers.new.items ≡ numbers.old.items ++ (if passes then (number ∷ []) else [])) }
{
    if passes {
        numbers.push(number)?;
    }
    Ok(())
}
