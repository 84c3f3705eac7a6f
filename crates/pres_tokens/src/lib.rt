//! The tokens of predicate texts.
//! It stands on `pop_io`.
//! The layer above uses: `next_token` gives the list of the tokens, one after the other.
#![tactic(auto)]

mod scan;
mod token;

pub use scan::{PLACE_LIMIT, next_token};
pub use token::{Kind, Relation, Token};
