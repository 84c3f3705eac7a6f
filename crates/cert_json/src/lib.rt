//! Bundle files and their proofs, in which leaves may have goals: read, and without goals also written.
//! It stands on `cert_base`, `pres_read`, `pop_net` and `base_json`.
//! The layer above uses: `read_stable_bundle` and `read_proof` are exact, faults included; `write_proof` is read back.
#![tactic(auto)]

mod bundle;
mod goal;
mod kind;
mod layers;
mod node;
mod part;
mod read;
mod stable;
mod terms;
mod write;
mod write_node;

pub use bundle::Bundle;
pub use read::{pred_why, read_proof};
pub use stable::{StableBundle, read_stable_bundle};
pub use write::write_proof;
