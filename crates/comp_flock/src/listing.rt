//! The moves of a leaf.

ghost use Rattle.std.specs.Prelude.{◌≡◌, ◌≤◌, ◌+◌, ◌++◌, map, flat_map, IfOk, OnOk};
ghost use Rattle.std.specs.List.{range_with_len};
ghost use Rattle.comp_counting.specs.declared.limits.TheConstants.{PLACE_LIMIT};
ghost use Rattle.comp_counting.specs.FullState.{conversion_move};
ghost use Rattle.comp_flock.specs.CountLeaf.{full_move as full_of, join_move as join_of, filled_move as filled_of, pair_moves};
ghost use Rattle.comp_flock.specs.CountLeaf.{moves_from as from_of, count_moves};

use crate::worths::{Worths, worth_in};
use pop_io::NoMemory;
use pop_leaf::Move;
use std::alloc::Global;

/// Both become full.
fn full_move(k: u16, p: u16, q: u16) -> Move
    requires { k ≤ PLACE_LIMIT }
    ensures { result ≡ full_of k p q }
{
    Move {
        p,
        q,
        r: k + 1,
        s: k + 1,
    }
}

/// One takes both, and the other keeps nothing.
fn join_move(p: u16, q: u16) -> Move
    requires { p ≤ PLACE_LIMIT }
    ensures { result ≡ join_of p q }
{
    Move {
        p,
        q,
        r: p + 1,
        s: 0,
    }
}

/// The move of two states that are worth the target or more.
fn filled_move(worths: &Worths<'_>, p: u16, q: u16) -> Move
    requires first { p ≤ worths.now.k }
    requires second { q ≤ p }
    ensures { result ≡ filled_of worths.now.keeps worths.now.list.now worths.now.k p q }
{
    if worths.keeps && worth_in(worths, p) + worth_in(worths, q) == worth_in(worths, p + 1) {
        join_move(p, q)
    } else {
        full_move(worths.k, p, q)
    }
}

/// The move of two states that are not full, if they have one.
fn push_pair(moves: &mut Vec<Move>, worths: &Worths<'_>, p: u16, q: u16) -> Result<(), NoMemory>
    requires first { p ≤ worths.now.k }
    requires second { q ≤ p }
    ensures { OnOk result (moves.new.items
        ≡ moves.old.items ++ pair_moves worths.now.keeps worths.now.list.now worths.now.target worths.now.k p q) }
{
    let sum = worth_in(worths, p) + worth_in(worths, q);
    if worths.target <= sum {
        moves.push(filled_move(worths, p, q))?;
    } else if sum == worth_in(worths, p + 1) {
        moves.push(join_move(p, q))?;
    }
    Ok(())
}

/// The moves of a state with those that are worth no more.
fn moves_from(alloc: Global, worths: &Worths<'_>, p: u16) -> Result<Vec<Move>, NoMemory>
    requires first { p ≤ worths.now.k }
    ensures { IfOk result (λ moves.
        moves.items ≡ from_of worths.now.keeps worths.now.list.now worths.now.target worths.now.k p) }
{
    let mut moves = Vec::new(alloc);
    for q in 0..p + 1 {
        push_pair(&mut moves, worths, p, q)?;
    }
    Ok(moves)
}

/// The moves of all states that are not full.
fn pairs(alloc: Global, worths: &Worths<'_>) -> Result<Vec<Move>, NoMemory>
    ensures { IfOk result (λ moves. moves.items
        ≡ flat_map (from_of worths.now.keeps worths.now.list.now worths.now.target worths.now.k) (range_with_len 0 (worths.now.k + 1))) }
{
    let mut moves = Vec::new(alloc);
    for p in 0..worths.k + 1 {
        let own = moves_from(alloc, worths, p)?;
        moves.extend_from_slice(own.as_slice())?;
    }
    Ok(moves)
}

fn conversions(alloc: Global, k: u16) -> Result<Vec<Move>, NoMemory>
    requires { k ≤ PLACE_LIMIT }
    ensures { IfOk result (λ moves. moves.items ≡ map (conversion_move k) (range_with_len 0 (k + 1))) }
{
    let moves = (0..k + 1).map(|q| full_move(k, k + 1, q)).collect(alloc)?;
    Ok(moves)
}

/// First those of two that are not full, then those of a full one.
pub(crate) fn moves(alloc: Global, worths: &Worths<'_>) -> Result<Vec<Move>, NoMemory>
    ensures { IfOk result (λ moves.
        moves.items ≡ count_moves worths.now.keeps worths.now.list.now worths.now.target worths.now.k) }
{
    let mut moves = pairs(alloc, worths)?;
    let conversions = conversions(alloc, worths.k)?;
    moves.extend_from_slice(conversions.as_slice())?;
    Ok(moves)
}
