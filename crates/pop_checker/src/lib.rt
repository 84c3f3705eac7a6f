//! The whole check of a proof, in which leaves may have goals.
//! It stands on `cert_layers`, `cert_tree`, `cert_goals`, `pop_crowd` and the theory of nets.
//! The layer above uses: `check_stable` accepts exactly valid proofs, and by the law the net is then stably right.
//! `check` does so where each leaf falls silent; such a net computes its predicate within its bound.
#![tactic(auto)]

mod checked;
mod combination;
mod fault;
mod law;
mod part;
mod preds;
mod silent;
mod stable_fault;
mod stable_law;
mod stable_part;
mod stable_whole;
mod tame;
mod whole;

pub use checked::Checked;
pub use combination::net_pred_is;
pub use fault::Rejected;
pub use law::{majority_computes, one_layer_each_is_tame, valid_is_right};
pub use silent::is_silent;
pub use stable_fault::StableRejected;
pub use stable_law::{silent_proofs, valid_is_stably_right};
pub use stable_whole::check_stable;
pub use tame::are_tame;
pub use whole::check;
