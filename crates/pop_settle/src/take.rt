//! Takes, and what they lead to.

use pop_crowd::Crowd;
use pop_io::List;

/// Two agents take a move of one leaf, and their states in the other leaves stay.
#[derive(Clone, Copy, PartialEq, Eq)]
pub struct Take {
    pub leaf: u8,
    /// The move's number.
    pub step: u32,
    /// The agent that takes it as its first.
    pub a: u32,
    /// The agent that takes it as its second.
    pub b: u32,
}

/// The takes in their order, and the last crowd.
#[derive(Drop)]
pub struct Settled {
    pub takes: List<Take>,
    pub crowd: Crowd,
}
