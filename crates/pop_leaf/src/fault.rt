//! Why a leaf can't be made.

/// The first rule that a leaf breaks.
#[derive(Clone, Copy, PartialEq, Eq)]
pub enum LeafFault {
    /// The number of states is outside 1 to `STATE_LIMIT`.
    States(u64),
    /// The first name that is malformed or equal to an earlier one.
    Name(u32),
    /// There are more than `MOVE_LIMIT` moves.
    Moves(u64),
    /// The first move with a number that no state has.
    Move(u32),
    /// The number of inputs is outside 1 to `VARIABLE_LIMIT`.
    Inputs(u64),
    /// The first input with a number that no state has.
    Input(u32),
    /// There are not as many outputs as states.
    Outputs(u64),
    /// There are more than `HELPER_LIMIT` helpers.
    Helpers(u64),
    /// The first helper with a number that no state has.
    Helper(u32),
}
