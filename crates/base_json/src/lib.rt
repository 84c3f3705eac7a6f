//! Readers of the parts of a JSON value: a member, a list, a number, a text, each with the path that a fault names.
//! It stands on `pop_io`, `serde_json` and `itoa`, and knows no file format.
//! The layer above uses: each reader gives exactly what `specs/Shapes.antt` reads at its path, or out of memory.
#![tactic(auto)]

mod fault;
mod items;
mod members;
mod path;
mod shape;
mod tagged;

pub use fault::{FormatFault, PredWhy, Why, broken};
pub use items::{ReadItem, each_in, each_of};
pub use members::put_made;
pub use path::Path;
pub use shape::{
    ascending_of, integer_of, list_of, member_of, number_of, object_of, text_of, truth_of,
};
pub use tagged::{both_items, items_of, only_item, pair_of, word_of};
