//! Tests of nets and crowds that no row of `row_tests` can hold: texts, words, parts, reactions, and faults of calls.
//! It stands on the crates that it tests, and has no code but tests.
//! Nothing stands above it.
#![tactic(auto)]

#[cfg(test)]
mod crowds;
#[cfg(test)]
mod files;
#[cfg(test)]
mod leaves;
#[cfg(test)]
mod nets;
#[cfg(test)]
mod parts;
#[cfg(test)]
mod tables;
