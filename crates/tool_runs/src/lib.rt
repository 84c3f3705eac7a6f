//! The commands `run` and `watch`: what they prepare, a text or a run that is still to be made, and the making.
//! It stands on `tool_courses`, which checks a bundle and says what is prepared, and on `run_picks` and `pop_watch`.
//! The layer above uses: what is prepared leads only to outputs that the definitions in `specs` allow, and what is made
//! of a prepared run that `CanRun` is one of its outputs, `IsOutputOfRun`.
#![tactic(auto)]

mod making;
mod run;

pub use making::{make_alone, make_on_threads};
pub use run::{is_by_one, prepare_run};
