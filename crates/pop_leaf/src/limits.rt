//! The limits of leaves and nets. The limit of variables, and so of a leaf's inputs, is `VARIABLE_LIMIT` of `pop_io`.

/// The most states of a leaf, which has at least one.
pub const STATE_LIMIT: usize = 512;

/// The most states of a leaf that isn't wide.
pub const NARROW_STATE_LIMIT: usize = 256;

/// The most moves of a leaf.
pub const MOVE_LIMIT: usize = 65_536;

/// The most helpers of a net.
pub const HELPER_LIMIT: usize = 1_024;

/// The most leaves of a net, which has at least one.
pub const LEAF_LIMIT: usize = 8;

/// The most leaves of a net that has a wide one.
pub const WIDE_LEAF_LIMIT: usize = 4;

/// The most items of a combination.
pub const ITEM_LIMIT: usize = 1_024;

/// The greatest depth of a combination's tree.
pub const DEPTH_LIMIT: u8 = 65;
