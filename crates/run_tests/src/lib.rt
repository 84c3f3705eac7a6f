//! Tests of the shared field, of runs on threads and of journals that no row of `row_tests` can hold.
//! It stands on the crates that it tests, and has no code but tests.
//! Nothing stands above it.
#![tactic(auto)]

#[cfg(test)]
mod fields;
#[cfg(test)]
mod journals;
#[cfg(test)]
mod refusals;
#[cfg(test)]
mod runs;
#[cfg(test)]
mod watched;
