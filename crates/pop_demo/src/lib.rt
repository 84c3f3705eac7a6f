//! The demo cases: predicates, counts and runs by a number.
//! It stands on `pres_ast` and `pop_words`.
//! The layer above uses: the predicate, the counts and the run are exactly those of the number.
#![tactic(auto)]

mod case;
mod run;

pub use case::{demo_case, demo_names};
pub use run::demo_run;
