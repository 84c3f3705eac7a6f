//! How states are packed into a word: a lane per leaf, lane 0 lowest.

ghost use Rattle.std.specs.Prelude.{◌≡◌, ◌+◌, ◌-◌, ◌*◌, ◌/◌, ◌%◌, ◌^◌, ◌<◌, ◌≤◌, ◌↔◌, IsTrue};
ghost use Rattle.pop_leaf.specs.NetModel.{is_wide};
ghost use Rattle.pop_net.specs.LaneWidth.{bits_of, width_of};

use crate::limits::{LANE_BITS, WIDE_LANE_BITS, WORD_BITS};
use pop_leaf::Leaf;

/// How many bits a lane has.
#[derive(Clone, Copy, PartialEq, Eq)]
pub(crate) enum LaneWidth {
    Narrow,
    Wide,
}

impl LaneWidth {
    /// The width that these leaves need.
    pub(crate) fn of_leaves(leaves: &[Leaf]) -> LaneWidth
        ensures { result ≡ width_of leaves.now }
    {
        if has_wide_leaf(leaves) {
            LaneWidth::Wide
        } else {
            LaneWidth::Narrow
        }
    }

    pub(crate) fn bits(self) -> usize
        ensures { result ≡ bits_of self }
    {
        match self {
            LaneWidth::Narrow => LANE_BITS,
            LaneWidth::Wide => WIDE_LANE_BITS,
        }
    }

    /// A lane whose bits are all set.
    fn mask(self) -> u64
        ensures { result ≡ 2 ^ bits_of self - 1 }
    {
        match self {
            LaneWidth::Narrow => u64::from(u8::MAX),
            LaneWidth::Wide => u64::from(u16::MAX),
        }
    }

    /// The state in lane i.
    pub(crate) fn state(self, word: u64, i: usize) -> u16
        requires { bits_of self * (i + 1) ≤ WORD_BITS }
        ensures { result ≡ word / (2 ^ bits_of self) ^ i % 2 ^ bits_of self }
    {
        ((word >> (self.bits() * i)) & self.mask()) as u16
    }

    /// Puts a state into lane i of a word whose lanes from i on are 0.
    pub(crate) fn with_state(self, word: u64, i: usize, state: u16) -> u64
        requires lane { bits_of self * (i + 1) ≤ WORD_BITS }
        requires free { word < (2 ^ bits_of self) ^ i }
        requires small { state < 2 ^ bits_of self }
        ensures sum { result ≡ word + state * (2 ^ bits_of self) ^ i }
        ensures used { result < (2 ^ bits_of self) ^ (i + 1) }
    {
        word + (u64::from(state) << (self.bits() * i))
    }

    /// Whether all lanes from lane n on are 0.
    pub(crate) fn ends_before(self, word: u64, n: usize) -> bool
        requires { bits_of self * n ≤ WORD_BITS }
        ensures { IsTrue result ↔ (word < (2 ^ bits_of self) ^ n) }
    {
        let used = self.bits() * n;
        used == WORD_BITS || word >> used == 0
    }
}

fn has_wide_leaf(leaves: &[Leaf]) -> bool
    ensures { result ≡ is_wide leaves.now }
{
    leaves.iter().any(|leaf| leaf.is_wide())
}
