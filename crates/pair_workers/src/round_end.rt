//! What a round leaves.

use pop_crowd::{Crowd, Meeting};
use run_picks::Picker;

/// The meetings of a round, the crowd after them, and the workers' pickers.
#[derive(Drop)]
pub struct RoundEnd {
    pub crowd: Crowd,
    pub pickers: Vec<Picker>,
    pub meetings: Vec<Meeting>,
}
