//! The cases of a proof's nodes that speak of states: present, twin, trap, siphon and first.
//! It stands on `cert_base`.
//! The layer above uses: each list of cases is the defined one, and every end meets one of its cases.
#![tactic(auto)]

mod facts;
mod first;
mod inputs;
mod partners;
mod present;
mod role;
mod set;
mod siphon;
mod trap;

pub use first::{entry_cases, facts_before_entry, first_cases};
pub use present::{present_cases, twin_case};
pub use set::StateSet;
pub use siphon::siphon_cases;
pub use trap::trap_cases;
