//! How long a journal may be.

use crate::journal::LINE_LIMIT;
use pop_io::WORKER_LIMIT;
use run_picks::ROUND_TURNS;
use run_spec::TURN_LIMIT;

/// The most rounds of a run: no worker makes more than `TURN_LIMIT` meetings.
pub(crate) const ROUND_LIMIT: u64 = (TURN_LIMIT + ROUND_TURNS - 1) / ROUND_TURNS;

/// The most lines of a round: its own, and one for each meeting.
const ROUND_LINES: u64 = 1 + WORKER_LIMIT as u64 * ROUND_TURNS;

/// The greatest number of a round's first meeting line: before it are the run's line, its own, and whole rounds.
pub(crate) const FIRST_MEETING_LIMIT: u64 = LINE_LIMIT + 2 + ROUND_LIMIT * ROUND_LINES;
