//! Tests of hushed leaves, layers of some moves and sets, with ample memory.
//! It stands on `cert_goals` and `sample_nets`, and has no code but tests.
//! Nothing stands above it.
#![tactic(auto)]

#[cfg(test)]
mod goals;
