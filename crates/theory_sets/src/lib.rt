//! Sets of states that agents don't leave once all are in them, and the crowds of a goal.
//! It stands on `pop_leaf` and `cert_base`, and takes its searches' words from `cert_layers`.
//! The layer above uses: the definitions, and the laws that no step leaves a held crowd or a settled end.
#![tactic(auto)]

mod law;

pub use law::goal_crowds_stay;
