//! Tests of whole commands that a row of `row_tests` can't hold: gates, runs on threads, a long input, a calm sink.
//! It stands on `pop_tool` and `pop_io`, and has no code but tests.
//! Nothing stands above it.
#![tactic(auto)]

#[cfg(test)]
mod limits;
#[cfg(test)]
mod rows;
#[cfg(test)]
mod thread_rows;
