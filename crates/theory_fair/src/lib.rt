//! Fair executions: what a net computes if its crowds can always be led to a right end.
//! It stands on `pres_ast`, `pop_net` and `terminal_test`.
//! The layer above uses: the law, by which a checked net computes its predicate in every fair execution.
#![tactic(auto)]

mod law;
mod times;

pub use law::{
    Goal, fair_executions_stabilise, fair_maps_are_fair_multisets, finite_executions_extend,
    goals_stabilise, silent_outputs_stabilise, standing_crowds,
};
pub use times::{middle_gives_markov, times_are_found};
