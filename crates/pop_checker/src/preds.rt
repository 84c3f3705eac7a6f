//! The predicates of a proof's leaves.

ghost use Rattle.std.specs.Prelude.{◌≡◌, IfOk};
ghost use Rattle.pop_checker.specs.ValidStable.{predicate_alone, predicates_alone};

use cert_base::{LeafGoals, LeafProof, Proof, StablePart, StableProof};
use pop_io::{List, NoMemory};
use std::alloc::Global;

/// The proof that has the leaves' predicates and nothing else.
pub(crate) fn predicates_of(alloc: Global, proof: &StableProof) -> Result<Proof, NoMemory>
    ensures { IfOk result (λ alone. alone ≡ predicates_alone proof.now) }
{
    let mut leaves = Vec::new(alloc);
    for part in proof.leaves.as_slice() {
        leaves.push(predicate_of(alloc, part)?)?;
    }
    Ok(Proof {
        leaves: List::from_vec(leaves),
    })
}

fn predicate_of(alloc: Global, part: &StablePart) -> Result<LeafProof, NoMemory>
    ensures { IfOk result (λ alone. alone ≡ predicate_alone part.now) }
{
    let pred = match part {
        StablePart::Silent(LeafProof { pred, .. }) => pred,
        StablePart::Stable(LeafGoals { pred, .. }) => pred,
    };
    Ok(LeafProof {
        pred: pred.copy(alloc)?,
        layers: List::from_vec(Vec::new(alloc)),
        on_true: List::from_vec(Vec::new(alloc)),
        on_false: List::from_vec(Vec::new(alloc)),
    })
}
