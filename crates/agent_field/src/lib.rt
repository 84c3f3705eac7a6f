//! A crowd whose agents threads share: seats that make meetings concurrently, and look at all agents.
//! It stands on `pop_crowd` and `atomic_table`.
//! The layer above uses: each meeting is logged with its ticket, and closing gives the history and its replay.
#![tactic(auto)]

mod close;
mod field;
mod layout;
mod life;
mod limits;
mod looks;
mod meet;
mod moments;
mod places;
mod steps;
mod view;

pub use close::Round;
pub use field::{Field, FieldSeat, Met};
pub use layout::Layout;
pub use limits::{LOG_LIMIT, LOOK_LIMIT, SEAT_LIMIT};
pub use moments::{draws_beside_a_third, each_moment_stands, plays_are_kinds};
pub use view::{Logged, Look};
