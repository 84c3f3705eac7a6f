//! Why a net can't be made.

ghost use Rattle.std.specs.Prelude.{◌≡◌};
ghost use Rattle.pop_net.specs.NetFaults.{net_fault};

/// The first rule that a net breaks.
#[derive(Clone, Copy, PartialEq, Eq)]
pub enum NetFault {
    /// The number of variables is outside 1 to `VARIABLE_LIMIT`.
    Vars(u64),
    /// The first name that is malformed or equal to an earlier one.
    VarName(u32),
    /// The number of leaves is outside 1 to `LEAF_LIMIT`.
    Leaves(u64),
    /// The first leaf whose number of inputs isn't that of the variables.
    LeafInputs(u8),
    /// The number of items of the combination is outside 1 to `ITEM_LIMIT`.
    Items(u64),
    /// The first item that names no leaf, finds too few operands, or makes a tree deeper than `DEPTH_LIMIT`.
    Item(u32),
    /// The number of operands that the items leave, if it isn't 1.
    Open(u32),
    /// The first leaf whose number of helpers isn't that of leaf 0.
    LeafHelpers(u8),
    /// The first wide leaf among more than `WIDE_LEAF_LIMIT` leaves.
    Wide(u8),
}

/// The first rule that a combination of at most `ITEM_LIMIT` items breaks.
#[derive(Clone, Copy, PartialEq, Eq)]
pub enum CombinationFault {
    /// The first item that names no leaf, finds too few operands, or makes a tree deeper than `DEPTH_LIMIT`.
    Item(u32),
    /// The number of operands that the items leave, if it isn't 1.
    Open(u32),
}

impl From<CombinationFault> for NetFault {
    ghost from_gives = { λ c n. n ≡ net_fault c };

    fn from(fault: CombinationFault) -> NetFault {
        match fault {
            CombinationFault::Item(k) => NetFault::Item(k),
            CombinationFault::Open(count) => NetFault::Open(count),
        }
    }
}
