//! Tests of written proofs, sums of facts and built leaves that no row of `row_tests` can hold.
//! It stands on the crates that it tests, and has no code but tests.
//! Nothing stands above it.
#![tactic(auto)]

#[cfg(test)]
mod sums;
#[cfg(test)]
mod threshold_sizes;
#[cfg(test)]
mod trails;
#[cfg(test)]
mod written_proofs;
