//! Tests of lines, numbers, streams and predicates that no row of `row_tests` can hold.
//! It stands on the crates that it tests, and has no code but tests.
//! Nothing stands above it.
#![tactic(auto)]

#[cfg(test)]
mod lines;
#[cfg(test)]
mod predicates;
#[cfg(test)]
mod streams;
