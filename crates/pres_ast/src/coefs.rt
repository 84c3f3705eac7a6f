//! Coefficients of atoms.

ghost use Rattle.std.specs.Prelude.{◌≡◌, ◌≤◌, All, nat_abs, map, neg_ℤ, IfOk};

use crate::limits::COEFFICIENT_LIMIT;
use pop_io::NoMemory;
use std::alloc::Global;

/// The negated coefficients.
pub fn turned(alloc: Global, coefs: &[i64]) -> Result<Vec<i64>, NoMemory>
    requires { All (λ a. nat_abs a ≤ COEFFICIENT_LIMIT) coefs.now }
    ensures { IfOk result (λ turned. turned.items ≡ map neg_ℤ coefs.now) }
{
    let mut turned = Vec::with_capacity(alloc, coefs.len())?;
    for coef in coefs {
        turned.push(-*coef)?;
    }
    Ok(turned)
}
