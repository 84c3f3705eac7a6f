//! Refutations of facts by sums of their rows, and the trail of facts of a case.
//! It stands on `cert_base`.
//! The layer above uses: `linear_closes` and `residue_closes` are the closing tests; no counts meet what they close.
#![tactic(auto)]

mod closing;
mod sum;
mod tally;
mod trail;

pub use closing::{linear_closes, residue_closes};
pub use trail::Trail;
