//! Whether a crowd is terminal, and the least pair of agents that can change otherwise.
//! It stands on `pop_crowd`.
//! The layer above uses: `is_terminal` and `agreed` are exact, and `enabled_pair` is the least pair, if there is one.
#![tactic(auto)]

mod agreement;
mod enabled;
mod loud;
mod pair_table;
mod partner;
mod restless;

pub use agreement::agreed;
pub use enabled::enabled_pair;
pub use pair_table::PairTable;
