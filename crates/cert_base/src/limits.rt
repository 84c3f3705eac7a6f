//! The limits of proofs.

/// The most layers of a leaf.
pub const LAYER_LIMIT: usize = 256;

/// The most sets of a goal.
pub const SET_LIMIT: usize = 64;

/// The most nodes of a tree.
pub const NODE_LIMIT: usize = 1_000_000;

/// The most nodes on a path of a tree.
pub const PATH_LIMIT: usize = 4_096;

/// The most facts of a case.
pub const FACT_LIMIT: usize = 65_536;

/// The most terms of a node.
pub const TERM_LIMIT: usize = 65_536;

/// The greatest size of a weight, a multiplier, a coefficient and a constant.
pub const SIZE_LIMIT: u64 = 1 << 40;

/// How many numbers there are for variables, facts and moves: each has 32 bits.
pub const INDEX_COUNT: u64 = 1 << 32;

/// How many numbers there are for states: each has 16 bits.
pub const STATE_INDEX_COUNT: u64 = 1 << 16;
