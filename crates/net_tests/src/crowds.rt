//! Crowds: how they meet, and what can change in them.

ghost use Rattle.std.specs.Prelude.{◌≡◌, length, IfSome};
ghost use Rattle.pop_net.specs.Lanes.{AreValid};

use pop_crowd::{Crowd, Meeting};
use pop_net::{Item, Leaf, Net, Word};
use sample_nets::{leaf_of, majority, net_of, step};
use std::alloc::Global;
use terminal_test::{agreed, enabled_pair};

/// In leaf 0, p becomes r when it meets q; in leaf 1 nothing moves.
fn leaf(alloc: Global, number: u32) -> Option<Leaf> {
    if number == 0 {
        let moves = [step(0, 1, 2, 1)];
        leaf_of(
            alloc,
            &["p", "q", "r"],
            &moves,
            &[1, 0],
            &[true, true, true],
            &[],
        )
    } else {
        leaf_of(alloc, &["u", "v"], &[], &[1, 0], &[true, true], &[])
    }
}

/// A net of both leaves. Variable x starts as `q/v`, and y as `p/u`.
fn two_leaves(alloc: Global) -> Option<Net>
    ensures { IfSome result (λ net. length net.variables ≡ 2) }
{
    let mut leaves = Vec::new(alloc);
    for number in 0..2 {
        leaves.push(leaf(alloc, number)?).ok()?;
    }
    net_of(alloc, &["x", "y"], leaves, &[Item::Leaf(0)])
}

/// A copy of the crowd of these counts.
fn crowd(alloc: Global, net: &Net, counts: [u64; 2]) -> Option<Crowd>
    requires { length net.now.variables ≡ 2 }
    ensures { IfSome result (AreValid net.now) }
{
    let crowd = Crowd::of_counts(alloc, net, counts.as_slice()).ok()?;
    crowd.copy(alloc).ok()
}

fn meeting(a: u32, b: u32) -> Meeting
    ensures first { result.a ≡ a }
    ensures second { result.b ≡ b }
{
    Meeting {
        worker: 0,
        a,
        b,
        changed: false,
    }
}

/// The words of a crowd of three.
fn words(crowd: &Crowd) -> Option<[Word; 3]> {
    if crowd.len() != 3 {
        return None;
    }
    Some([crowd.word(0), crowd.word(1), crowd.word(2)])
}

/// How many of two meetings change a word, and what the words are then.
fn replayed(net: &Net, crowd: &mut Crowd) -> Option<(u64, [Word; 3])>
    requires { AreValid net.now crowd.old }
{
    if crowd.len() != 3 {
        return None;
    }
    let changed = crowd.replay(net, &[meeting(2, 0), meeting(1, 2)]);
    Some((changed, words(crowd)?))
}

fn after_meetings(alloc: Global) -> Option<(u64, [Word; 3])> {
    let net = two_leaves(alloc)?;
    let mut crowd = crowd(alloc, &net, [1, 2])?;
    replayed(&net, &mut crowd)
}

#[test]
fn agents_meet(rt: HostRuntime) {
    let words = [Word(0x0101), Word(0), Word(2)];
    assert!(rt; after_meetings(rt.alloc()) == Some((1, words)));
}

/// The least pair that changes a word, and the output on which all agree.
type Found = (Option<(u32, u32)>, Option<bool>);

fn found_in(alloc: Global, net: &Net, crowd: &Crowd) -> Option<Found>
    requires { AreValid net.now crowd.now }
{
    let pair = enabled_pair(alloc, net, crowd).ok()?;
    Some((pair, agreed(net, crowd)))
}

/// What is found in a crowd of majority.
fn found(alloc: Global, counts: [u64; 2]) -> Option<Found> {
    let net = majority(alloc)?;
    let crowd = crowd(alloc, &net, counts)?;
    found_in(alloc, &net, &crowd)
}

#[test]
fn the_least_pair_of_majority(rt: HostRuntime) {
    assert!(rt; found(rt.alloc(), [2, 1]) == Some((Some((0, 2)), None)));
    assert!(rt; found(rt.alloc(), [0, 65_536]) == Some((None, Some(false))));
}
