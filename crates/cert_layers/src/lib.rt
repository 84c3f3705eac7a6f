//! The check of a leaf's ranking layers.
//! It stands on `cert_base`.
//! The layer above uses: `check_layers` accepts exactly valid layers, by which crowds can end within their bound.
#![tactic(auto)]

mod bound;
mod check;
mod fault;
mod lower;
mod move_layers;
mod pairs;
mod tame;
mod waking;
mod work;

pub use bound::bound_of;
pub use check::check_layers;
pub use fault::LayerWhy;
pub use tame::is_tame;
pub use work::TAME_WORK_LIMIT;
