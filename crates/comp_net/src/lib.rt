//! The compiler: a predicate in, a certified protocol out.
//! It stands on `comp_threshold`, `comp_remainder`, `comp_flock` and `comp_powers`.
//! The layer above uses: the net is exactly the built one and single, its proof is valid, a refusal has its cause.
//!
//! Each atom has a leaf of its own, and all leaves run side by side on the same agents. A leaf computes its atom by its
//! own proof, and the net's combination of the atoms is the predicate's tree, so the net computes the predicate.
#![tactic(auto)]

mod building;
mod choice;
mod fault;
mod helpers;
mod law;
mod limits;
mod sizes;
mod whole;

pub use choice::LeafChoice;
pub use fault::CompileFault;
pub use law::{
    at_least_two_computes, flocks_are_smaller, prefixes_are_smaller, succinct_leaves_are_small,
};
pub use limits::NARROW_WIDTH_LIMIT;
pub use whole::{compile, compile_flocks, compile_with};
