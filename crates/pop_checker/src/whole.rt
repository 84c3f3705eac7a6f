//! The check of a whole proof.

ghost use Rattle.std.specs.Prelude.{◌≡◌, length, IfOk, OnOk};
ghost use Rattle.pop_io.specs.Failures.{IfFault, OnlyMemory};
ghost use Rattle.pres_ast.specs.PredModel.{PredModel};
ghost use Rattle.pop_leaf.specs.NetModel.{IsNet};
ghost use Rattle.cert_base.specs.ProofBound.{proof_bound};
ghost use Rattle.cert_base.specs.ProofLimits.{IsProofWithin};
ghost use Rattle.pop_checker.specs.Rejections.{AreValidBefore, IsRejected};
ghost use Rattle.pop_checker.specs.Checks.{Checks};
ghost use Rattle.pop_checker.specs.Parts.{AreRightBefore};

use crate::checked::Checked;
use crate::combination::net_pred_is;
use crate::fault::Rejected;
use crate::part::check_part;
use cert_base::Proof;
use pop_io::Failure;
use pop_net::Net;
use pres_ast::Pred;
use std::alloc::Global;

/// Whether a proof is valid for a net and a predicate (Blondin, Esparza, Jaax, Meyer 2017).
pub fn check(
    alloc: Global,
    net: Net,
    pred: Pred,
    proof: &Proof,
) -> Result<Checked, Failure<Rejected>>
    requires variables { pred.variables ≡ length net.variables }
    requires within { IsProofWithin (length net.variables) (length net.leaves) proof.now }
    ensures { Checks net pred proof.now result }
{
    let bound = check_parts(alloc, &net, proof)?;
    let same = net_pred_is(&net, proof, &pred);
    if !same {
        return Err(Failure::Fault(Rejected::Predicate));
    }
    Ok(Checked::new(net, pred, bound))
}

/// Whether the proofs of all leaves are right, and the bound for each agent.
fn check_parts(alloc: Global, net: &Net, proof: &Proof) -> Result<u64, Failure<Rejected>>
    requires { IsProofWithin (length net.now.variables) (length net.now.leaves) proof.now }
    ensures formed { IsNet net.now }
    ensures right { OnOk result (AreRightBefore net.now proof.now.leaves (length net.now.leaves)) }
    ensures bound { IfOk result (λ bound. bound ≡ proof_bound proof.now) }
    ensures fault { (p : PredModel) → IfFault result (IsRejected net.now p proof.now) }
    ensures accepts { AreValidBefore net.now proof.now (length net.now.leaves) → OnlyMemory result }
{
    // What the invariant says is known from here on.
    let _formed = net.leaf_count();
    let parts = proof.leaves.as_slice();
    let mut bound = 0;
    for (number, part) in parts.iter().enumerate() {
        let number = number as u8;
        let more = check_part(alloc, net.leaf(number), number, part)?;
        bound += more;
    }
    Ok(bound)
}
