//! Operations on packed words, leaf by leaf.

ghost use Rattle.std.specs.Prelude.{◌≡◌, ◌*◌, ◌^◌, ◌<◌, ◌≤◌, ◌↔◌, length, map, take, All, IsTrue, slice_index};
ghost use Rattle.pop_leaf.specs.NetModel.{AreStates, leaf_outputs};
ghost use Rattle.pop_leaf.specs.Reaction.{reactions};
ghost use Rattle.pop_net.specs.LaneWidth.{bits_of};
ghost use Rattle.pop_net.specs.Lanes.{digits};

use crate::lanes::LaneWidth;
use crate::limits::WORD_BITS;
use pop_leaf::{LEAF_LIMIT, Leaf};

/// Each leaf reacts by itself.
pub(crate) fn react_words(lanes: LaneWidth, leaves: &[Leaf], a: u64, b: u64) -> (u64, u64)
    requires few { bits_of lanes * length leaves.now ≤ WORD_BITS }
    requires fits { All (λ leaf. length leaf.states ≤ 2 ^ bits_of lanes) leaves.now }
    requires a_valid { AreStates leaves.now (digits (2 ^ bits_of lanes) (length leaves.now) a) }
    requires b_valid { AreStates leaves.now (digits (2 ^ bits_of lanes) (length leaves.now) b) }
    ensures first { digits (2 ^ bits_of lanes) (length leaves.now) result.0
        ≡ map (λ z. z.0)
        (reactions leaves.now (digits (2 ^ bits_of lanes) (length leaves.now) a)
        (digits (2 ^ bits_of lanes) (length leaves.now) b)) }
    ensures second { digits (2 ^ bits_of lanes) (length leaves.now) result.1
        ≡ map (λ z. z.1)
        (reactions leaves.now (digits (2 ^ bits_of lanes) (length leaves.now) a)
        (digits (2 ^ bits_of lanes) (length leaves.now) b)) }
    ensures first_ends { result.0 < (2 ^ bits_of lanes) ^ length leaves.now }
    ensures second_ends { result.1 < (2 ^ bits_of lanes) ^ length leaves.now }
{
    if leaves.len() == 1 {
        let (x, y) = leaves[0].react(lanes.state(a, 0), lanes.state(b, 0));
        return (lanes.with_state(0, 0, x), lanes.with_state(0, 0, y));
    }
    let mut first = 0;
    let mut second = 0;
    for (i, leaf) in leaves.iter().enumerate() {
        let (x, y) = leaf.react(lanes.state(a, i), lanes.state(b, i));
        first = lanes.with_state(first, i, x);
        second = lanes.with_state(second, i, y);
    }
    (first, second)
}

/// The word in which an agent of a variable starts.
pub(crate) fn start_word(lanes: LaneWidth, leaves: &[Leaf], variable: u16) -> u64
    requires few { bits_of lanes * length leaves.now ≤ WORD_BITS }
    requires fits { All (λ leaf. length leaf.states ≤ 2 ^ bits_of lanes) leaves.now }
    requires input { All (λ leaf. variable < length leaf.inputs) leaves.now }
    ensures start { digits (2 ^ bits_of lanes) (length leaves.now) result
        ≡ map (λ leaf. slice_index leaf.inputs variable) leaves.now }
    ensures ends { result < (2 ^ bits_of lanes) ^ length leaves.now }
{
    let mut word = 0;
    for (i, leaf) in leaves.iter().enumerate() {
        word = lanes.with_state(word, i, leaf.input(variable));
    }
    word
}

/// The word in which a helper starts.
pub(crate) fn helper_word(lanes: LaneWidth, leaves: &[Leaf], helper: u32) -> u64
    requires few { bits_of lanes * length leaves.now ≤ WORD_BITS }
    requires fits { All (λ leaf. length leaf.states ≤ 2 ^ bits_of lanes) leaves.now }
    requires helper { All (λ leaf. helper < length leaf.helpers) leaves.now }
    ensures start { digits (2 ^ bits_of lanes) (length leaves.now) result
        ≡ map (λ leaf. slice_index leaf.helpers helper) leaves.now }
    ensures ends { result < (2 ^ bits_of lanes) ^ length leaves.now }
{
    let mut word = 0;
    for (i, leaf) in leaves.iter().enumerate() {
        word = lanes.with_state(word, i, leaf.helper(helper));
    }
    word
}

/// Whether each lane holds a state of its leaf, and the lanes past the last leaf are 0.
pub(crate) fn is_valid_word(lanes: LaneWidth, leaves: &[Leaf], word: u64) -> bool
    requires { bits_of lanes * length leaves.now ≤ WORD_BITS }
    ensures { IsTrue result
        ↔ (AreStates leaves.now (digits (2 ^ bits_of lanes) (length leaves.now) word)
        × (word < (2 ^ bits_of lanes) ^ length leaves.now)) }
{
    for (i, leaf) in leaves.iter().enumerate() {
        if lanes.state(word, i) >= leaf.state_count() {
            return false;
        }
    }
    lanes.ends_before(word, leaves.len())
}

/// The output of each leaf. Those past the last leaf are false.
pub(crate) fn word_outputs(lanes: LaneWidth, leaves: &[Leaf], word: u64) -> [bool; LEAF_LIMIT]
    requires few { bits_of lanes * length leaves.now ≤ WORD_BITS }
    requires room { length leaves.now ≤ LEAF_LIMIT }
    requires valid { AreStates leaves.now (digits (2 ^ bits_of lanes) (length leaves.now) word) }
    ensures { take (length leaves.now) result
        ≡ leaf_outputs leaves.now (digits (2 ^ bits_of lanes) (length leaves.now) word) }
{
    let mut outputs = [false; LEAF_LIMIT];
    for (i, leaf) in leaves.iter().enumerate() {
        outputs[i] = leaf.output(lanes.state(word, i));
    }
    outputs
}
