//! Predicates: quantifier-free Presburger arithmetic over "less than" and "congruent".
//! It stands on `pop_io`.
//! The layer above uses: `eval` is the predicate's value, `same` is equality, and `copy` is equal.
#![tactic(auto)]

mod coefs;
mod limits;
mod pred;
mod tree;
mod value;

pub use coefs::turned;
pub use limits::{BOUND_LIMIT, COEFFICIENT_LIMIT, MODULUS_LIMIT, WEIGHT_LIMIT};
pub use pred::{Pred, same};
pub use tree::Tree;
