//! Settling: the moves of the layers that an input chooses, taken until the outputs are right for ever.
//! It stands on `cert_layers`, `cert_goals`, `pop_crowd` and `pop_checker`.
//! The layer above uses: `settle` gives the only settlement by layers, within the proof's bound, and ends in a terminal
//! crowd; `settle_goals` by the layers that the input chooses. `resting_net` is the net of their moves alone.
#![tactic(auto)]

mod bound;
mod by_goals;
mod choosing;
mod fault;
mod groups;
mod hushing;
mod law;
mod layered;
mod limits;
mod rest_law;
mod resting;
mod runs;
mod settling;
mod take;
mod walk;

pub use by_goals::settle_goals;
pub use fault::SettleFault;
pub use law::settlements_end;
pub use limits::TAKE_LIMIT;
pub use rest_law::settlements_rest;
pub use resting::resting_net;
pub use settling::settle;
pub use take::{Settled, Take};
