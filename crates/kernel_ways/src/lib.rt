//! The ways of a run: agent by agent, where a random word is a meeting, and by counts, where what changes nothing is
//! skipped.
//! It stands on `kernel_draws`.
//! The layer above uses: each change is a result of the table, and the crowd keeps its size.
#![tactic(auto)]

mod agents;
mod choice;
mod counts;
mod dealing;
mod run;
mod table;
mod tally;

pub use agents::go_by_agents;
pub use choice::Way;
pub use counts::{go_by_counts, moving, put_one, weight_of_all};
pub use dealing::{deal, total_of};
pub use run::{Row, Run};
pub use table::{Cell, Coin, Meet, Outcome, Table};
pub use tally::{Change, Goal, Tally};
