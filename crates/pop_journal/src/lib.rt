//! Journals: written of a run that was kept, read, and compared with a run made anew.
//! It stands on `run_picks` and `run_text`.
//! The layer above uses: `write_journal` gives `run_text`, `read_journal` reads `journal_in`, `verify` tests `Holds`.
#![tactic(auto)]

mod form;
mod journal;
mod lacking;
mod law;
mod limits;
mod read;
mod reading;
mod record;
mod replay_context;
mod replayer;
mod short;
mod verdict;

pub use journal::{Journal, LINE_LIMIT};
pub use law::{one_spelling, one_spelling_until, written_holds, written_holds_until};
pub use read::read_journal;
pub use record::write_journal;
pub use run_text::{JournalFault, JournalWhy, Last, VerifyFault};
pub use short::short_pair;
pub use verdict::{verify, verify_settled};
