//! A predicate in, a certified net out.

ghost use Rattle.std.specs.Prelude.{◌≡◌, None, All, length, IfOk};
ghost use Rattle.pop_io.specs.Names.{AreNames, variable_name};
ghost use Rattle.pop_io.specs.Failures.{IfFault};
ghost use Rattle.pop_leaf.specs.NetModel.{IsNet};
ghost use Rattle.pop_leaf.specs.Reaction.{IsSingle};
ghost use Rattle.pres_ast.specs.PredModel.{IsPred};
ghost use Rattle.cert_base.specs.ProofBound.{proof_bound};
ghost use Rattle.cert_base.specs.ProofLimits.{IsProofWithin};
ghost use Rattle.cert_base.specs.ValidProof.{ValidProof};
ghost use Rattle.pop_checker.specs.Sound.{IsRight};
ghost use Rattle.theory_tame.specs.Laws.{AreTameEach};
ghost use Rattle.comp_net.specs.BuiltNet.{net_of};
ghost use Rattle.comp_net.specs.BuiltBound.{bound_in};
ghost use Rattle.comp_net.specs.CompileFaults.{fault_in, RefusesIn};
ghost use Rattle.comp_net.specs.Compiles.{Compiles};

use crate::building::build;
use crate::choice::{LeafChoice, NetLeaves, leaves_for};
use crate::fault::CompileFault;
use crate::sizes::fault_of;
use cert_base::Proof;
use pop_io::{Failure, List, Text};
use pop_net::Net;
use pres_ast::Pred;
use std::alloc::Global;

/// The built net with these leaves, and its proof.
fn compile_by(
    alloc: Global,
    leaves: NetLeaves,
    pred: &Pred,
    names: &List<Text>,
) -> Result<(Net, Proof), Failure<CompileFault>>
    requires formed { AreNames variable_name names.now }
    requires count { length names.now ≡ pred.now.variables }
    ensures net { IfOk result (λ both. both.0 ≡ net_of leaves names.now pred.now.tree) }
    ensures valid { IfOk result (λ both. ValidProof both.0 pred.now both.1) }
    ensures bound { IfOk result (λ both. proof_bound both.1 ≡ bound_in leaves pred.now.tree) }
    ensures within { IfOk result (λ both. IsProofWithin pred.now.variables (length both.0.leaves) both.1) }
    ensures formed { IfOk result (λ both. IsNet both.0) }
    ensures preds { IfOk result (λ both. All (λ part. IsPred pred.now.variables part.pred.tree) both.1.leaves) }
    ensures single { IfOk result (λ both. IsSingle both.0) }
    ensures right { IfOk result (λ both. IsRight both.0 pred.now both.1) }
    ensures tame { IfOk result (λ both. AreTameEach both.0 both.1) }
    ensures accepted { IfOk result (λ both. fault_in leaves pred.now.tree ≡ None) }
    ensures refused { IfFault result (RefusesIn leaves pred.now.tree) }
{
    if let Some(fault) = fault_of(alloc, leaves, pred)? {
        return Err(Failure::Fault(fault));
    }
    Ok(build(alloc, leaves, pred, names)?)
}

/// The built net over these names, with the leaves that are asked for, and a valid proof that it computes the
/// predicate. Whether there is one is known before anything is built.
pub fn compile_with(
    alloc: Global,
    choice: LeafChoice,
    pred: &Pred,
    names: &List<Text>,
) -> Result<(Net, Proof), Failure<CompileFault>>
    requires formed { AreNames variable_name names.now }
    requires count { length names.now ≡ pred.now.variables }
    ensures { Compiles choice names.now pred.now result }
{
    let leaves = leaves_for(choice, pred.tree());
    compile_by(alloc, leaves, pred, names)
}

/// As `compile_with`, with the plain leaves.
pub fn compile(
    alloc: Global,
    pred: &Pred,
    names: &List<Text>,
) -> Result<(Net, Proof), Failure<CompileFault>>
    requires formed { AreNames variable_name names.now }
    requires count { length names.now ≡ pred.now.variables }
    ensures { Compiles LeafChoice.Plain names.now pred.now result }
{
    compile_with(alloc, LeafChoice::Plain, pred, names)
}

/// As `compile_with`, with the leaves of flocks.
pub fn compile_flocks(
    alloc: Global,
    pred: &Pred,
    names: &List<Text>,
) -> Result<(Net, Proof), Failure<CompileFault>>
    requires formed { AreNames variable_name names.now }
    requires count { length names.now ≡ pred.now.variables }
    ensures { Compiles LeafChoice.Flocks names.now pred.now result }
{
    compile_with(alloc, LeafChoice::Flocks, pred, names)
}
