//! Tame layers: how the moves of a leaf die out, one layer after the other, and how soon random meetings bring a net to
//! rest. It stands on `theory_random`, `theory_fair` and `cert_base`.
//! The layer above uses: the law, by which tame layers bound the expected number of meetings by a cubic.
#![tactic(auto)]

mod law;

pub use law::{one_layer_is_tame, tame_layers_are_cubic};
