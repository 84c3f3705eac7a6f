//! What a round begins with.

use pop_crowd::Crowd;
use run_picks::Picker;

/// A crowd, the workers' pickers, and how many turns each worker makes.
#[derive(Drop)]
pub struct RoundStart {
    pub crowd: Crowd,
    pub pickers: Vec<Picker>,
    pub turns: u64,
}
