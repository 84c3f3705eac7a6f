//! The moves of a leaf.

ghost use Rattle.std.specs.Prelude.{◌≡◌, ◌<◌, IfOk};
ghost use Rattle.comp_threshold.specs.ThresholdLeaf.{span_of, threshold_state_count, threshold_leader_move};
ghost use Rattle.comp_threshold.specs.ThresholdLeaf.{alters_states, threshold_pairs, threshold_turns};
ghost use Rattle.comp_threshold.specs.ThresholdLeaf.{threshold_moves};

use crate::narrow::Width;
use crate::values::{follower, place_in, span};
use pop_io::NoMemory;
use pop_leaf::Move;
use std::alloc::Global;

/// What a leader and a state become when they meet.
fn leader_move(width: Width, t: u16, p: u16, q: u16) -> Move
    requires leader { p < span_of width.number }
    requires state { q < threshold_state_count width.number }
    ensures { result ≡ threshold_leader_move width.number t p q }
{
    let v = place_in(width, q);
    let sum = (p + v).saturating_sub(width.number);
    let joined = if 2 * width.number < sum {
        2 * width.number
    } else {
        sum
    };
    let leftover = p + v - joined;
    Move {
        p,
        q,
        r: joined,
        s: follower(width, joined < t, leftover),
    }
}

/// Whether a state changes.
fn alters(m: &Move) -> bool
    ensures { result ≡ alters_states m.now }
{
    !(m.r == m.p && m.s == m.q)
}

fn pairs_of(alloc: Global, width: Width, t: u16, p: u16) -> Result<Vec<Move>, NoMemory>
    requires leader { p < span_of width.number }
    ensures { IfOk result (λ moves. moves.items ≡ threshold_pairs width.number t p) }
{
    let moves = (p..span(width))
        .map(|q| leader_move(width, t, p, q))
        .collect(alloc)?;
    Ok(moves)
}

fn turns_of(alloc: Global, width: Width, t: u16, p: u16) -> Result<Vec<Move>, NoMemory>
    requires leader { p < span_of width.number }
    ensures { IfOk result (λ moves. moves.items ≡ threshold_turns width.number t p) }
{
    let n = span(width);
    let moves = (n..3 * n)
        .map(|q| leader_move(width, t, p, q))
        .filter(|m| alters(m))
        .collect(alloc)?;
    Ok(moves)
}

/// Each leader meets each leader from itself on; then each leader meets each follower, if a state changes.
pub(crate) fn moves(alloc: Global, width: Width, t: u16) -> Result<Vec<Move>, NoMemory>
    ensures { IfOk result (λ moves. moves.items ≡ threshold_moves width.number t) }
{
    let mut moves = Vec::new(alloc);
    for p in 0..span(width) {
        let pairs = pairs_of(alloc, width, t, p)?;
        moves.extend_from_slice(pairs.as_slice())?;
    }
    for p in 0..span(width) {
        let turns = turns_of(alloc, width, t, p)?;
        moves.extend_from_slice(turns.as_slice())?;
    }
    Ok(moves)
}
