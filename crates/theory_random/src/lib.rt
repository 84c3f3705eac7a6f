//! Random meetings: what a net computes with probability 1, and how soon, if few meetings can always lead it to a right
//! end.
//! It stands on `pres_ast`, `pop_net`, `pop_crowd` and `terminal_test`.
//! The layer above uses: the law, by which a checked net computes its predicate almost surely.
#![tactic(auto)]

mod law;

pub use law::{falling_is_cubic, random_examples, random_meetings_compute, runs_are_uniform};
