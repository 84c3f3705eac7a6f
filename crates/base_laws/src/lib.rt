//! Laws on lists, options, ranges and numbers that several crates cite and std lacks. It has no code.
//! It stands on std.
//! The layer above uses: the lemmas of `proofs/`, each of which is stated only here.
#![tactic(auto)]
