//! A net, a predicate and a proof as a person reads them: one line for each part, by names.
//! It stands on `pop_net`, `cert_base`, `pres_read` and `base_lines`.
//! The layer above uses: `push_shown` adds the lines of `shown_of`, whose predicates are canonical texts.
//! By `text_tells` a text tells what it shows; by `lines_tell` so does each name, list of states, move and predicate.
#![tactic(auto)]

mod goal;
mod law;
mod layer;
mod leaf;
mod lines;
mod list;
mod name;
mod whole;

pub use law::{lines_tell, text_tells};
pub use whole::push_shown;
