//! The moves of a leaf.

ghost use Rattle.std.specs.Prelude.{◌≡◌, ◌<◌, IfOk, map};
ghost use Rattle.std.specs.List.{range_with_len};
ghost use Rattle.comp_remainder.specs.RemainderLeaf.{remainder_follower, leader_meeting, follower_turn};
ghost use Rattle.comp_remainder.specs.RemainderLeaf.{remainder_pairs, remainder_moves};

use crate::modulus::Modulus;
use pop_io::NoMemory;
use pop_leaf::Move;
use std::alloc::Global;

/// The follower with an answer.
pub(crate) fn follower(modulus: Modulus, answer: bool) -> u16
    ensures { result ≡ remainder_follower modulus.number answer }
{
    let modulus = modulus.number;
    if answer { modulus + 1 } else { modulus }
}

/// What two leaders become when they meet.
fn meeting(modulus: Modulus, rest: u16, p: u16, q: u16) -> Move
    requires first { p < modulus.number }
    requires second { q < modulus.number }
    ensures { result ≡ leader_meeting modulus.number rest p q }
{
    let sum = (p + q) % modulus.number;
    Move {
        p,
        q,
        r: sum,
        s: follower(modulus, sum == rest),
    }
}

/// How a leader turns a follower.
fn turn(modulus: Modulus, rest: u16, p: u16) -> Move
    ensures { result ≡ follower_turn modulus.number rest p }
{
    let answer = p == rest;
    Move {
        p,
        q: follower(modulus, !answer),
        r: p,
        s: follower(modulus, answer),
    }
}

/// A leader meets each leader from itself on.
fn pairs_of(alloc: Global, modulus: Modulus, rest: u16, p: u16) -> Result<Vec<Move>, NoMemory>
    requires leader { p < modulus.number }
    ensures { IfOk result (λ moves. moves.items ≡ remainder_pairs modulus.number rest p) }
{
    let moves = (p..modulus.number)
        .map(|q| meeting(modulus, rest, p, q))
        .collect(alloc)?;
    Ok(moves)
}

/// Each leader turns a follower.
fn turns(alloc: Global, modulus: Modulus, rest: u16) -> Result<Vec<Move>, NoMemory>
    ensures { IfOk result (λ moves. moves.items ≡ map (follower_turn modulus.number rest) (range_with_len 0 modulus.number)) }
{
    let moves = (0..modulus.number)
        .map(|p| turn(modulus, rest, p))
        .collect(alloc)?;
    Ok(moves)
}

/// Each leader meets each leader from itself on; then each leader turns a follower.
pub(crate) fn moves(alloc: Global, modulus: Modulus, rest: u16) -> Result<Vec<Move>, NoMemory>
    ensures { IfOk result (λ moves. moves.items ≡ remainder_moves modulus.number rest) }
{
    let mut moves = Vec::new(alloc);
    for p in 0..modulus.number {
        let pairs = pairs_of(alloc, modulus, rest, p)?;
        moves.extend_from_slice(pairs.as_slice())?;
    }
    let turns = turns(alloc, modulus, rest)?;
    moves.extend_from_slice(turns.as_slice())?;
    Ok(moves)
}
