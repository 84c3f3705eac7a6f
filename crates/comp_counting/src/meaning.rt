//! What an atom says.

ghost use Rattle.std.specs.Prelude.{◌≡◌, IfOk};
ghost use Rattle.comp_counting.specs.FlockAtoms.{says_enough as says_of, enough_for as enough_of, IsOffset};
ghost use Rattle.comp_counting.specs.FlockAtoms.{offset_pred_of};

use pop_io::{List, NoMemory};
use pres_ast::{Pred, Tree};
use std::alloc::Global;

/// Whether an atom with this bound says that there are enough; else it denies it.
#[tactic(auto, using(crate::proofs::Opened::none_or_less))]
pub fn says_enough(bound: i64) -> bool
    ensures { result ≡ says_of bound }
{
    bound <= 0
}

/// How many are enough.
pub fn enough_for(bound: i64) -> u64
    ensures { result ≡ enough_of bound }
{
    if bound > 0 {
        bound as u64
    } else {
        bound.unsigned_abs() + 1
    }
}

/// The atom as a predicate.
pub fn offset_pred(alloc: Global, coefs: &[i64], bound: i64, power: u32) -> Result<Pred, NoMemory>
    requires { IsOffset coefs.now bound power }
    ensures { IfOk result (λ pred. pred ≡ offset_pred_of coefs.now bound) }
{
    let tree = Tree::Less {
        coefs: List::from_vec(Vec::from_slice(alloc, coefs)?),
        bound,
    };
    Ok(Pred::new(coefs.len() as u16, tree))
}
