//! Net files: the JSON value of a net, read and written.
//! It stands on `pop_net`, `base_json` and `serde_json`.
//! The layer above uses: `read_net` gives the file's net or the first broken rule, and reads what `write_net` gives.
#![tactic(auto)]

mod combine;
mod format;
mod leaf;
mod leaves;
mod names;
mod read;
mod write;

pub use base_json::{FormatFault, PredWhy, Why};
pub use read::{read_net, read_net_at};
pub use write::write_net;
