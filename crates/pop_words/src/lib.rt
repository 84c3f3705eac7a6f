//! The words of the command line, the vars line, the crowd line and the meeting line.
//! It stands on `pop_io`, `base_lines` and `run_spec`.
//! The layer above uses: `read_words` is `meaning_of`, and the readers of lines `meeting_of`, `vars_of`, `counts_of`.
#![tactic(auto)]

mod command;
mod counts;
mod meeting;
mod options;
mod vars;
mod words;

pub use command::{Command, DEMO_LIMIT, Usage, UsageWhy};
pub use counts::{BadWord, read_counts};
pub use meeting::{MeetingFault, read_meeting};
pub use vars::{NoVars, read_vars};
pub use words::{WORD_LIMIT, read_words};
