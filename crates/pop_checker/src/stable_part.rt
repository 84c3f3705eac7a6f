//! The check of one leaf's part of a proof.

ghost use Rattle.std.specs.Prelude.{◌≡◌, ◌≤◌, ◌*◌, length, true, false, IfOk, OnOk};
ghost use Rattle.pop_io.specs.Failures.{IfFault, OnlyMemory};
ghost use Rattle.cert_base.specs.ProofLimits.{IsGoalWithin};
ghost use Rattle.cert_base.specs.ProofBound.{layers_bound};
ghost use Rattle.cert_base.specs.StableProof.{pred_of_part, AreGoalsWithin, IsPartWithin};
ghost use Rattle.cert_goals.specs.ValidGoal.{ValidGoal};
ghost use Rattle.pop_checker.specs.ValidStable.{ValidPart, goals_bound, part_bound};
ghost use Rattle.pop_checker.specs.StableRejections.{IsGoalRejected, AreGoalsRejected, IsPartRejected};

use crate::part::check_part;
use crate::stable_fault::StableRejected;
use cert_base::{Goal, LAYER_LIMIT, LeafGoals, SIZE_LIMIT, StablePart};
use cert_goals::check_goal;
use pop_io::Failure;
use pop_net::Leaf;
use pres_ast::Pred;
use std::alloc::Global;

/// Whether the part of the leaf with this number is right, and the bound for each agent.
pub(crate) fn check_stable_part(
    alloc: Global,
    leaf: &Leaf,
    number: u8,
    part: &StablePart,
) -> Result<u64, Failure<StableRejected>>
    requires variables { (pred_of_part part.now).variables ≡ length leaf.now.inputs }
    requires within { IsPartWithin (pred_of_part part.now).variables part.now }
    ensures valid { OnOk result (ValidPart leaf.now part.now) }
    ensures bound { IfOk result (λ bound.
        (bound ≡ part_bound part.now) × (bound ≤ LAYER_LIMIT * (2 * SIZE_LIMIT))) }
    ensures fault { IfFault result (IsPartRejected leaf.now part.now number) }
    ensures accepts { ValidPart leaf.now part.now → OnlyMemory result }
{
    match part {
        StablePart::Silent(part) => match check_part(alloc, leaf, number, part) {
            Ok(bound) => Ok(bound),
            Err(Failure::Fault(rejected)) => Err(Failure::Fault(StableRejected::Plain(rejected))),
            Err(Failure::NoMemory) => Err(Failure::NoMemory),
        },
        StablePart::Stable(goals) => check_goals(alloc, leaf, number, goals),
    }
}

/// The same for a leaf with goals. The bound is the greater one of both goals.
fn check_goals(
    alloc: Global,
    leaf: &Leaf,
    number: u8,
    goals: &LeafGoals,
) -> Result<u64, Failure<StableRejected>>
    requires variables { goals.now.pred.variables ≡ length leaf.now.inputs }
    requires within { AreGoalsWithin goals.now.pred.variables goals.now }
    ensures on_true { OnOk result (ValidGoal leaf.now goals.now.pred true goals.now.on_true) }
    ensures on_false { OnOk result (ValidGoal leaf.now goals.now.pred false goals.now.on_false) }
    ensures bound { IfOk result (λ bound.
        (bound ≡ goals_bound goals.now) × (bound ≤ LAYER_LIMIT * (2 * SIZE_LIMIT))) }
    ensures fault { IfFault result (AreGoalsRejected leaf.now goals.now number) }
    ensures accepts { ValidGoal leaf.now goals.now.pred true goals.now.on_true
        → ValidGoal leaf.now goals.now.pred false goals.now.on_false → OnlyMemory result }
{
    let on_true = check_value(alloc, leaf, number, &goals.pred, true, &goals.on_true)?;
    let on_false = check_value(alloc, leaf, number, &goals.pred, false, &goals.on_false)?;
    Ok(on_true.max(on_false))
}

/// The same for one value.
fn check_value(
    alloc: Global,
    leaf: &Leaf,
    number: u8,
    pred: &Pred,
    value: bool,
    goal: &Goal,
) -> Result<u64, Failure<StableRejected>>
    requires variables { pred.now.variables ≡ length leaf.now.inputs }
    requires within { IsGoalWithin goal.now }
    ensures valid { OnOk result (ValidGoal leaf.now pred.now value goal.now) }
    ensures bound { IfOk result (λ bound.
        (bound ≡ layers_bound goal.now.layers) × (bound ≤ LAYER_LIMIT * (2 * SIZE_LIMIT))) }
    ensures fault { IfFault result (IsGoalRejected leaf.now pred.now value goal.now number) }
    ensures accepts { ValidGoal leaf.now pred.now value goal.now → OnlyMemory result }
{
    match check_goal(alloc, leaf, pred, value, goal) {
        Ok(bound) => Ok(bound),
        Err(Failure::Fault(why)) => Err(Failure::Fault(StableRejected::Goal {
            leaf: number,
            value,
            why,
        })),
        Err(Failure::NoMemory) => Err(Failure::NoMemory),
    }
}
