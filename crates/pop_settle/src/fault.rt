//! The faults of settling.

/// Why a crowd is not settled.
#[derive(Clone, Copy, PartialEq, Eq)]
pub enum SettleFault {
    /// The proof's bound times the number of agents is over `TAKE_LIMIT`.
    Long(u128),
}
