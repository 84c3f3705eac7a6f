//! Laws of nets, leaf by leaf: what the leaves' outputs combine to, and how a net makes a leaf's moves. It has no code.
//! It stands on `pop_net`, `theory_fair` and `cert_base`.
//! The layer above uses: the lemmas of `proofs/`, for leaves that fall silent and for leaves with goals.
#![tactic(auto)]
