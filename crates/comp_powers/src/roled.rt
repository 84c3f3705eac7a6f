//! A leaf of powers with what its states stand for.

ghost use Rattle.comp_powers.specs.PowersProof.{AreStates};

use comp_powers_leaf::Role;
use pop_leaf::Leaf;

/// A leaf for these coefficients and the range 2^k, and the role of each of its states.
#[derive(Clone, Copy)]
pub(crate) struct RoledLeaf<'a> {
    pub(crate) leaf: &'a Leaf,
    pub(crate) coefs: &'a [i64],
    pub(crate) k: u32,
    pub(crate) roles: &'a [Role],
    ghost states: { AreStates leaf.now coefs.now k roles.now },
}
