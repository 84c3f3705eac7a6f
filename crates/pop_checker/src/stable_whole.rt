//! The check of a whole proof.

ghost use Rattle.std.specs.Prelude.{◌≡◌, length, IfOk, OnOk};
ghost use Rattle.pop_io.specs.Failures.{IfFault, OnlyMemory};
ghost use Rattle.pres_ast.specs.PredModel.{PredModel};
ghost use Rattle.pop_leaf.specs.NetModel.{IsNet};
ghost use Rattle.cert_base.specs.StableProof.{IsStableProofWithin};
ghost use Rattle.pop_checker.specs.ValidStable.{ArePartsValidBefore, stable_bound};
ghost use Rattle.pop_checker.specs.StableRejections.{IsStableRejected};
ghost use Rattle.pop_checker.specs.ChecksStable.{ChecksStable};

use crate::combination::net_pred_is;
use crate::fault::Rejected;
use crate::preds::predicates_of;
use crate::stable_fault::StableRejected;
use crate::stable_part::check_stable_part;
use cert_base::StableProof;
use pop_io::Failure;
use pop_net::Net;
use pres_ast::Pred;
use std::alloc::Global;

/// Whether a proof in which leaves may have goals is valid for a net and a predicate, and the bound for each agent.
pub fn check_stable(
    alloc: Global,
    net: &Net,
    pred: &Pred,
    proof: &StableProof,
) -> Result<u64, Failure<StableRejected>>
    requires variables { pred.now.variables ≡ length net.now.variables }
    requires within { IsStableProofWithin (length net.now.variables) (length net.now.leaves) proof.now }
    ensures { ChecksStable net.now pred.now proof.now result }
{
    let bound = check_parts(alloc, net, proof)?;
    let alone = predicates_of(alloc, proof)?;
    let same = net_pred_is(net, &alone, pred);
    if !same {
        return Err(Failure::Fault(StableRejected::Plain(Rejected::Predicate)));
    }
    Ok(bound)
}

/// Whether the parts of all leaves are right, and the bound for each agent.
fn check_parts(
    alloc: Global,
    net: &Net,
    proof: &StableProof,
) -> Result<u64, Failure<StableRejected>>
    requires { IsStableProofWithin (length net.now.variables) (length net.now.leaves) proof.now }
    ensures formed { IsNet net.now }
    ensures valid { OnOk result (ArePartsValidBefore net.now proof.now.leaves (length net.now.leaves)) }
    ensures bound { IfOk result (λ bound. bound ≡ stable_bound proof.now) }
    ensures fault { (p : PredModel) → IfFault result (IsStableRejected net.now p proof.now) }
    ensures accepts { ArePartsValidBefore net.now proof.now.leaves (length net.now.leaves) → OnlyMemory result }
{
    // What the invariant says is known from here on.
    let _formed = net.leaf_count();
    let parts = proof.leaves.as_slice();
    let mut bound = 0;
    for (number, part) in parts.iter().enumerate() {
        let number = number as u8;
        let more = check_stable_part(alloc, net.leaf(number), number, part)?;
        bound += more;
    }
    Ok(bound)
}
