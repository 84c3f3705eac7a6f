//! Why nets are refused, their parts, and their words.

ghost use Rattle.std.specs.Prelude.{◌≡◌, length};

use crate::parts::listed;
use pop_io::{List, Text};
use pop_net::{Item, Leaf, Net, NetFault, Word};
use sample_nets::{helped, leaf_of, numbered, pair_of_leaves, texts, wide};
use std::alloc::Global;

/// The first leaf of the wide net.
fn wide_leaf(alloc: Global) -> Option<Leaf> {
    let net = wide(alloc)?;
    if net.leaf_count() == 0 {
        return None;
    }
    net.leaf(0).copy(alloc).ok()
}

/// A leaf of two states with this many helpers, or a wide one.
fn leaf(alloc: Global, kind: u8) -> Option<Leaf> {
    if kind == b'w' {
        return wide_leaf(alloc);
    }
    let helpers: &[u16] = match kind {
        b'0' => &[],
        b'1' => &[0],
        _ => &[0, 1],
    };
    leaf_of(alloc, &["p", "q"], &[], &[0, 1], &[true, false], helpers)
}

fn leaves(alloc: Global, kinds: &str) -> Option<Vec<Leaf>> {
    let mut leaves = Vec::new(alloc);
    for kind in kinds.as_bytes() {
        leaves.push(leaf(alloc, *kind)?).ok()?;
    }
    Some(leaves)
}

/// Why a net of leaves of these kinds with this combination is refused.
fn fault_of(alloc: Global, names: List<Text>, kinds: &str, items: &[Item]) -> Option<NetFault> {
    let leaves = List::from_vec(leaves(alloc, kinds)?);
    Net::new(alloc, names, leaves, listed(alloc, items)).err()
}

const SIZES: [(usize, &str, NetFault); 5] = [
    (17, "0", NetFault::Vars(17)),
    (16, "0", NetFault::LeafInputs(0)),
    (2, "000000000", NetFault::Leaves(9)),
    (2, "12", NetFault::LeafHelpers(1)),
    (2, "0w000", NetFault::Wide(1)),
];

fn fault_of_sizes(alloc: Global, variables: usize, kinds: &str) -> Option<NetFault> {
    let names = numbered(alloc, variables).ok()?;
    fault_of(alloc, names, kinds, &[Item::Leaf(0)])
}

#[test]
fn nets_of_many_sizes(rt: HostRuntime) {
    for (variables, kinds, fault) in SIZES {
        assert!(rt; fault_of_sizes(rt.alloc(), variables, kinds) == Some(fault));
    }
}

fn fault_of_names(alloc: Global) -> Option<NetFault> {
    let names = texts(alloc, &["x", "mod"]).ok()?;
    fault_of(alloc, names, "0", &[Item::Leaf(0)])
}

#[test]
fn a_variable_has_no_name(rt: HostRuntime) {
    assert!(rt; fault_of_names(rt.alloc()) == Some(NetFault::VarName(1)));
}

fn fault_of_items(alloc: Global, items: &[Item]) -> Option<NetFault> {
    let names = numbered(alloc, 2).ok()?;
    fault_of(alloc, names, "00", items)
}

const COMBINATIONS: [([Item; 3], NetFault); 2] = [
    ([Item::Leaf(0), Item::And, Item::Leaf(2)], NetFault::Item(1)),
    ([Item::Leaf(0), Item::Leaf(1), Item::Not], NetFault::Open(2)),
];

#[test]
fn combinations(rt: HostRuntime) {
    for (items, fault) in COMBINATIONS {
        assert!(rt; fault_of_items(rt.alloc(), items.as_slice()) == Some(fault));
    }
}

#[test]
fn a_combination_is_not_long(rt: HostRuntime) {
    let items = [Item::Leaf(0); 1_025];
    assert!(rt; fault_of_items(rt.alloc(), items.as_slice()) == Some(NetFault::Items(1_025)));
}

/// The numbers of variables, names, leaves, helpers and items, and the fourth item.
type Parts = (u16, usize, u8, u32, u32, Item);

fn parts(net: &Net) -> Option<Parts> {
    if net.item_count() < 4 {
        return None;
    }
    Some((
        net.var_count(),
        net.var_names().as_slice().len(),
        net.leaf_count(),
        net.helper_count(),
        net.item_count(),
        net.item(3),
    ))
}

fn parts_of_a_copy(alloc: Global) -> Option<Parts> {
    let net = pair_of_leaves(alloc)?.copy(alloc).ok()?;
    parts(&net)
}

#[test]
fn parts_of_a_net(rt: HostRuntime) {
    assert!(rt; parts_of_a_copy(rt.alloc()) == Some((2, 2, 2, 0, 4, Item::Or)));
}

/// How many helpers a net has, and the word of the first one.
fn helpers(alloc: Global) -> Option<(u32, Word)> {
    let net = helped(alloc)?;
    let count = net.helper_count();
    if count == 0 {
        return None;
    }
    Some((count, net.helper(0)))
}

#[test]
fn a_helper_of_a_net(rt: HostRuntime) {
    assert!(rt; helpers(rt.alloc()) == Some((1, Word(0))));
}

/// The words of the two variables, and what they become when the second meets the first.
fn words(net: &Net) -> [Word; 4]
    requires { length net.now.variables ≡ 2 }
{
    let x = net.start(0);
    let y = net.start(1);
    let (first, second) = net.react(y, x);
    [x, y, first, second]
}

/// The state of the last leaf in the word of the second variable, and what that word outputs.
fn last_state(net: &Net) -> Option<(u16, bool)>
    requires { length net.now.variables ≡ 2 }
{
    let word = net.start(1);
    let leaves = net.leaf_count();
    if leaves == 0 {
        return None;
    }
    Some((net.lane(word, leaves - 1), net.output(word)))
}

/// Words, the state and the output of the last one, and which of three others are those of an agent.
type Words = ([Word; 4], (u16, bool), [bool; 3]);

fn seen(net: &Net, others: [Word; 3]) -> Option<Words>
    requires { length net.now.variables ≡ 2 }
{
    let [first, second, third] = others;
    let valid = [net.valid(first), net.valid(second), net.valid(third)];
    Some((words(net), last_state(net)?, valid))
}

fn words_of_a_pair(alloc: Global) -> Option<Words> {
    let net = pair_of_leaves(alloc)?;
    seen(&net, [Word(0x0302), Word(0x0402), Word(0x0001_0302)])
}

#[test]
fn words_of_a_net(rt: HostRuntime) {
    let words = [Word(0), Word(0x0101), Word(0x0303), Word(0x0202)];
    assert!(rt; words_of_a_pair(rt.alloc()) == Some((words, (1, true), [true, false, false])));
}

fn words_of_wide_leaves(alloc: Global) -> Option<Words> {
    let net = wide(alloc)?;
    let others = [Word(0x012b_0000), Word(0x012c_0000), Word(0x012b_012b)];
    seen(&net, others)
}

#[test]
fn words_of_a_wide_net(rt: HostRuntime) {
    let all = Word(0x012b_012b);
    let words = [Word(0), all, all, all];
    assert!(rt;
        words_of_wide_leaves(rt.alloc()) == Some((words, (299, true), [true, false, true]))
    );
}
