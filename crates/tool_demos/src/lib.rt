//! The command `demo`: the case that it prepares for a number, and the making of the case's run.
//! It stands on `tool_courses`, on `comp_net`, which builds the case's net, and on the cases of `pop_demo`.
//! The layer above uses: what is prepared can be made, and leads only to outputs that the definitions in `specs` allow.
#![tactic(auto)]

mod demo;

pub use demo::{make_demo, prepare_demo};
