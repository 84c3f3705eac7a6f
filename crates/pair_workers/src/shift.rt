//! What the workers of a round do.

use crate::signals::Signals;

/// How many turns each worker of a round makes, the signals between them, and the gate that they pass.
pub struct Shift<'a, G> {
    pub turns: u64,
    pub signals: &'a Signals,
    pub gate: &'a G,
}

impl<G> Drop for Shift<'_, G> {
    fn drop(self) {
        let Shift {
            turns: _,
            signals: _,
            gate: _,
        } = self;
    }
}
