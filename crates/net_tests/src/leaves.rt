//! Why leaves are refused, and their parts and reactions.

use crate::parts::{listed, repeated};
use pop_io::Failure;
use pop_net::{Leaf, LeafFault, Move, Net};
use sample_nets::{majority, numbered, step, texts};
use std::alloc::Global;

/// The numbers of states, moves, inputs, outputs and helpers.
type Sizes = (usize, usize, usize, usize, usize);

const SIZES: [(Sizes, LeafFault); 5] = [
    ((513, 0, 1, 513, 0), LeafFault::States(513)),
    ((1, 65_537, 1, 1, 0), LeafFault::Moves(65_537)),
    ((1, 0, 17, 1, 0), LeafFault::Inputs(17)),
    ((2, 0, 1, 1, 0), LeafFault::Outputs(1)),
    ((1, 0, 1, 1, 1_025), LeafFault::Helpers(1_025)),
];

fn fault_of(alloc: Global, sizes: Sizes) -> Option<Failure<LeafFault>> {
    let (states, moves, inputs, outputs, helpers) = sizes;
    let states = numbered(alloc, states).ok()?;
    let moves = repeated(alloc, step(0, 0, 0, 0), moves);
    let inputs = repeated(alloc, 0, inputs);
    let outputs = repeated(alloc, true, outputs);
    let helpers = repeated(alloc, 0, helpers);
    Leaf::with_helpers(alloc, states, moves, inputs, outputs, helpers).err()
}

#[test]
fn leaves_of_many_sizes(rt: HostRuntime) {
    for (sizes, fault) in SIZES {
        assert!(rt; fault_of(rt.alloc(), sizes) == Some(Failure::Fault(fault)));
    }
}

/// The names of two states, two moves from 0 and 1, two inputs and a helper.
type Parts = ([&'static str; 2], [u16; 2], [u16; 2], u16);

const PARTS: [(Parts, LeafFault); 4] = [
    ((["A", "A"], [1, 1], [0, 1], 1), LeafFault::Name(1)),
    ((["A", "B"], [1, 2], [0, 2], 1), LeafFault::Move(1)),
    ((["A", "B"], [1, 1], [2, 1], 1), LeafFault::Input(0)),
    ((["A", "B"], [1, 1], [0, 1], 2), LeafFault::Helper(0)),
];

fn fault_of_parts(alloc: Global, parts: Parts) -> Option<Failure<LeafFault>> {
    let (names, ends, inputs, helper) = parts;
    let names = texts(alloc, names.as_slice()).ok()?;
    let moves = [step(0, 1, ends[0], 0), step(1, 1, ends[1], 1)];
    let moves = listed(alloc, moves.as_slice());
    let inputs = listed(alloc, inputs.as_slice());
    let outputs = listed(alloc, &[true, false]);
    let helpers = listed(alloc, &[helper]);
    Leaf::with_helpers(alloc, names, moves, inputs, outputs, helpers).err()
}

#[test]
fn names_and_numbers_of_a_leaf(rt: HostRuntime) {
    for (parts, fault) in PARTS {
        assert!(rt; fault_of_parts(rt.alloc(), parts) == Some(Failure::Fault(fault)));
    }
}

/// The numbers of states, moves, inputs and helpers.
type Numbers = (u16, u32, u16, u32);

/// The outputs of states 2 and 3, the start state of variable 1, the first move, and whether it is silent.
type Details = (bool, bool, u16, Move, bool);

/// What three pairs of states become.
type Reactions = [(u16, u16); 3];

fn numbers(leaf: &Leaf) -> Numbers {
    (
        leaf.state_count(),
        leaf.move_count(),
        leaf.input_count(),
        leaf.helper_count(),
    )
}

/// The details of a leaf whose state 2 has this name.
fn details(leaf: &Leaf, name: &str) -> Option<Details> {
    if leaf.state_count() < 4 || leaf.input_count() < 2 || leaf.move_count() == 0 {
        return None;
    }
    if leaf.name(2).as_bytes() != name.as_bytes() {
        return None;
    }
    let (first, silent) = (leaf.move_at(0), leaf.silent(0));
    Some((leaf.output(2), leaf.output(3), leaf.input(1), first, silent))
}

fn reactions(leaf: &Leaf) -> Option<Reactions> {
    if leaf.state_count() < 4 {
        return None;
    }
    Some([leaf.react(3, 0), leaf.react(2, 3), leaf.react(0, 2)])
}

/// What is seen of the first leaf.
fn seen(net: &Net) -> Option<(Numbers, Details, Reactions)> {
    if net.leaf_count() == 0 {
        return None;
    }
    let leaf = net.leaf(0);
    Some((numbers(leaf), details(leaf, "a")?, reactions(leaf)?))
}

fn seen_of_majority(alloc: Global) -> Option<(Numbers, Details, Reactions)> {
    let net = majority(alloc)?;
    seen(&net)
}

#[test]
fn parts_and_reactions_of_a_leaf(rt: HostRuntime) {
    let details = (true, false, 1, step(0, 1, 2, 3), false);
    let reactions = [(2, 0), (3, 3), (0, 2)];
    assert!(rt; seen_of_majority(rt.alloc()) == Some(((4, 4, 2, 0), details, reactions)));
}
