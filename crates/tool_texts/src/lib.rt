//! What the text of every command is made of: refusals, differences, statuses, input lines and JSON.
//! It stands on `base_lines`, `pop_words`, `base_json` and `run_text`.
//! The layer above uses: an `Output` for a refusal or a difference has exactly the text that `specs` defines.
#![tactic(auto)]

mod difference;
mod json;
mod lines;
mod output;
mod refusal;
mod status;
mod stop;

pub use json::value_of;
pub use lines::{
    just_one_line, just_three_lines, just_two_lines, two_and_more_lines, two_and_some_lines,
};
pub use output::{Ending, Output};
pub use refusal::{LineWhy, Refusal};
pub use status::Status;
pub use stop::{Stop, stop_of};
