//! Crowds of agents: how they start, meet and are printed.
//! It stands on `pop_net`.
//! The layer above uses: `meet` and `replay` are Reaction and Replay, and `of_counts` is InputCrowd.
#![tactic(auto)]

mod crowd;
mod examples;
mod fault;
mod limits;
mod lines;
mod starts;

pub use crowd::{Crowd, Meeting, differ};
pub use examples::replay_examples;
pub use fault::CrowdFault;
pub use limits::{AGENT_LEAST, AGENT_LIMIT};
