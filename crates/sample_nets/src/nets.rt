//! Nets of the literature and of worked examples (Angluin and others 2006).

ghost use Rattle.std.specs.Prelude.{◌≡◌, length, IfSome};

use crate::parts::{leaf_of, net_of, numbered, step};
use pop_io::List;
use pop_net::{Item, Leaf, Net};
use std::alloc::Global;

fn majority_leaf(alloc: Global) -> Option<Leaf> {
    let moves = [
        step(0, 1, 2, 3),
        step(0, 3, 0, 2),
        step(1, 2, 1, 3),
        step(3, 2, 3, 3),
    ];
    let outputs = [true, false, true, false];
    leaf_of(alloc, &["A", "B", "a", "b"], &moves, &[0, 1], &outputs, &[])
}

/// The majority protocol over x and y, with four states; A and B are the strong ones.
pub fn majority(alloc: Global) -> Option<Net>
    ensures { IfSome result (λ net. length net.variables ≡ 2) }
{
    let leaves = vec![in alloc; majority_leaf(alloc)?].ok()?;
    net_of(alloc, &["x", "y"], leaves, &[Item::Leaf(0)])
}

/// Two majority leaves: the first, or not the second.
pub fn pair_of_leaves(alloc: Global) -> Option<Net>
    ensures { IfSome result (λ net. length net.variables ≡ 2) }
{
    let leaves = vec![in alloc; majority_leaf(alloc)?, majority_leaf(alloc)?].ok()?;
    let combine = [Item::Leaf(0), Item::Leaf(1), Item::Not, Item::Or];
    net_of(alloc, &["x", "y"], leaves, &combine)
}

/// Two agents in A become t, and an agent in t converts one in A. It has these helpers.
fn pair_leaf(alloc: Global, helpers: &[u16]) -> Option<Leaf> {
    let moves = [step(0, 0, 1, 1), step(0, 1, 1, 1)];
    leaf_of(alloc, &["A", "t"], &moves, &[0], &[false, true], helpers)
}

/// Whether there are two agents: two in A become t, and t converts all others.
pub fn flock(alloc: Global) -> Option<Net>
    ensures { IfSome result (λ net. length net.variables ≡ 1) }
{
    let leaves = vec![in alloc; pair_leaf(alloc, &[])?].ok()?;
    net_of(alloc, &["x"], leaves, &[Item::Leaf(0)])
}

/// The same with a helper in A.
pub fn helped(alloc: Global) -> Option<Net>
    ensures { IfSome result (λ net. length net.variables ≡ 1) }
{
    let leaves = vec![in alloc; pair_leaf(alloc, &[0])?].ok()?;
    net_of(alloc, &["x"], leaves, &[Item::Leaf(0)])
}

/// A leaf of 300 states in which the first and the last become the last.
fn wide_leaf(alloc: Global) -> Option<Leaf> {
    let states = numbered(alloc, 300).ok()?;
    let moves = List::from_vec(vec![in alloc; step(0, 299, 299, 299)].ok()?);
    let inputs = List::from_vec(vec![in alloc; 0, 299].ok()?);
    let outputs = List::from_vec(vec![in alloc; true; 300].ok()?);
    Leaf::new(alloc, states, moves, inputs, outputs).ok()
}

/// Two leaves of 300 states.
pub fn wide(alloc: Global) -> Option<Net>
    ensures { IfSome result (λ net. length net.variables ≡ 2) }
{
    let leaves = vec![in alloc; wide_leaf(alloc)?, wide_leaf(alloc)?].ok()?;
    let combine = [Item::Leaf(0), Item::Leaf(1), Item::And];
    net_of(alloc, &["x", "y"], leaves, &combine)
}
