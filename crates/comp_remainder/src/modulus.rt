//! The modulus of a leaf.

ghost use Rattle.std.specs.Prelude.{◌≡◌, ◌≤◌};
ghost use Rattle.pres_ast.specs.declared.limits.TheConstants.{MODULUS_LIMIT};

/// A modulus.
#[derive(Clone, Copy)]
pub struct Modulus {
    pub number: u16,
    ghost low: { 1 ≤ number },
    ghost high: { number ≤ MODULUS_LIMIT },
}

impl Modulus {
    pub fn new(number: u16) -> Modulus
        requires low { 1 ≤ number }
        requires high { number ≤ MODULUS_LIMIT }
        ensures { result.number ≡ number }
    {
        Modulus { number }
    }
}
