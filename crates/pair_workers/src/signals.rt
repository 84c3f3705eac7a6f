//! What an observer and the workers of a round signal to each other. Clauses only say whether there is an observer.

ghost use Rattle.std.specs.Prelude.{◌≡◌, false, IsFalse};

use std::sync::atomic::{AtomicBool, AtomicU64, Ordering};
use std::thread::yield_now;

/// Whether there is an observer, whether the workers should stop, and the turn that one of them has reached.
#[derive(Drop)]
pub struct Signals {
    observed: bool,
    stop: AtomicBool,
    turn: AtomicU64,
}

impl Signals {
    /// The signals of a round: it is observed, or nobody stops it.
    pub fn new(observed: bool) -> Signals
        ensures { result.observed ≡ observed }
    {
        Signals {
            observed,
            stop: AtomicBool::new(false),
            turn: AtomicU64::new(0),
        }
    }

    /// Tells the workers to stop.
    pub fn stop(&self) {
        self.stop.store(true, Ordering::SeqCst);
    }

    pub(crate) fn is_stopped(&self) -> bool
        ensures { self.now.observed ≡ false → IsFalse result }
    {
        self.observed && self.stop.load(Ordering::SeqCst)
    }

    /// The number of the worker with this seat; an observer has the seat 0.
    pub(crate) fn worker_on(&self, seat: u16) -> u16 {
        seat.saturating_sub(u16::from(self.observed))
    }

    /// A worker has made so many turns.
    pub(crate) fn reach(&self, turn: u64) {
        if self.observed {
            self.turn.store(turn, Ordering::SeqCst);
        }
    }

    /// The turn that a worker has reached, once it is at least this one or so many polls are used up.
    pub fn turn_from(&self, turn: u64, polls: u32) -> u64 {
        for _ in 0..polls {
            if turn <= self.turn.load(Ordering::SeqCst) {
                break;
            }
            yield_now();
        }
        self.turn.load(Ordering::SeqCst)
    }
}
