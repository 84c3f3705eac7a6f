//! A bundle as one line of JSON text, appended piece by piece to a buffer.
//! It stands on `net_json` and `cert_json`, whose data it writes, and on `base_lines`.
//! The layer above uses: `write_bundle` adds the bundle's compact text, which is read back (`bundles_are_read_back`).
#![tactic(auto)]

mod bundle;
mod law;
mod leaf;
mod list;
mod net;
mod node;
mod pieces;
mod proof;

pub use bundle::write_bundle;
pub use law::bundles_are_read_back;
