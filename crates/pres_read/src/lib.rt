//! Predicate texts, read and printed.
//! It stands on `pop_io`, `pres_ast` and `pres_tokens`.
//! The layer above uses: `read_pred` gives the tree that the grammar relates to a text, or the first fault's place.
#![tactic(auto)]

mod atom;
mod depth;
mod fault;
mod number;
mod parser;
mod place;
mod print;
mod read;
mod sum;
mod unit;

pub use depth::PARENTHESIS_LIMIT;
pub use fault::ReadPred;
pub use print::print_pred;
pub use read::{TEXT_LIMIT, read_pred};
