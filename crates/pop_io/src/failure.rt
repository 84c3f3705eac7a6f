//! Why a call that can fail and takes memory gives nothing.

ghost use Rattle.std.specs.Prelude.{◌≡◌};
ghost use Rattle.pop_io.specs.declared.failure.Failure.TheVariants.{NoMemory as OutOfMemory};

use crate::fault::NoMemory;
use std::alloc::{AllocError, AllocFailed};

/// A fault that the call names, or out of memory.
#[derive(Clone, Copy, PartialEq, Eq, Drop)]
pub enum Failure<F> {
    /// What was asked for can't be.
    Fault(F),
    /// Out of memory.
    NoMemory,
}

impl<F> From<AllocError> for Failure<F> {
    ghost from_gives = { λ _ e. e ≡ OutOfMemory };

    fn from(_e: AllocError) -> Failure<F> {
        Failure::NoMemory
    }
}

impl<T: Drop, F> From<AllocFailed<T>> for Failure<F> {
    ghost from_gives = { λ _ e. e ≡ OutOfMemory };

    fn from(_e: AllocFailed<T>) -> Failure<F> {
        Failure::NoMemory
    }
}

impl<F> From<NoMemory> for Failure<F> {
    ghost from_gives = { λ _ e. e ≡ OutOfMemory };

    fn from(_e: NoMemory) -> Failure<F> {
        Failure::NoMemory
    }
}
