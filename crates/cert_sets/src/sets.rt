//! The check of the sets of a goal.

ghost use Rattle.std.specs.Prelude.{All, OnOk};
ghost use Rattle.pop_io.specs.Failures.{IfFault};
ghost use Rattle.cert_base.specs.ValidLayers.{moves_of_layers};
ghost use Rattle.cert_sets.specs.SetFaults.{AreSetsWithin, ChecksSets, HasOutput, IsGoodSet, IsBadBy};
ghost use Rattle.cert_sets.specs.SetFaults.{AreGoodSets, AreBadBy};

use crate::fault::SetFault;
use crate::goal_moves::GoalMoves;
use crate::outputs::first_other;
use crate::stay::{is_settled, left_by};
use cert_base::Layer;
use cert_traps::StateSet;
use pop_io::{Failure, List};
use pop_leaf::Leaf;
use std::alloc::Global;

/// Whether all states of each set have the value as their output, and each set stays, with the moves of these layers.
pub fn checked_sets(
    alloc: Global,
    given: &GoalMoves<'_>,
    value: bool,
    sets: &List<List<u16>>,
) -> Result<(), Failure<SetFault>>
    requires { AreSetsWithin sets.now }
    ensures { ChecksSets given.now.leaf.now (moves_of_layers given.now.layers.now) value sets.now result }
{
    each_checked(alloc, given, value, sets.as_slice())
}

fn each_checked(
    alloc: Global,
    given: &GoalMoves<'_>,
    value: bool,
    sets: &[List<u16>],
) -> Result<(), Failure<SetFault>>
    requires { AreSetsWithin sets.now }
    ensures good { OnOk result
        (AreGoodSets given.now.leaf.now (moves_of_layers given.now.layers.now) value sets.now) }
    ensures fault { IfFault result
        (AreBadBy given.now.leaf.now (moves_of_layers given.now.layers.now) value sets.now) }
{
    for (j, set) in sets.iter().enumerate() {
        check_set(alloc, given, value, set, j as u32)?;
    }
    Ok(())
}

fn check_set(
    alloc: Global,
    given: &GoalMoves<'_>,
    value: bool,
    set: &List<u16>,
    number: u32,
) -> Result<(), Failure<SetFault>>
    ensures good { OnOk result
        (IsGoodSet given.now.leaf.now (moves_of_layers given.now.layers.now) value set.now) }
    ensures fault { IfFault result
        (IsBadBy given.now.leaf.now (moves_of_layers given.now.layers.now) value number set.now) }
{
    if let Some(q) = first_other(given.leaf, value, set.as_slice()) {
        return Err(Failure::Fault(SetFault::Output {
            set: number,
            state: q,
        }));
    }
    check_stay(alloc, given, value, set, number)
}

/// The same for a set whose states have the value as their output.
fn check_stay(
    alloc: Global,
    given: &GoalMoves<'_>,
    value: bool,
    set: &List<u16>,
    number: u32,
) -> Result<(), Failure<SetFault>>
    requires { All (HasOutput given.now.leaf.now value) set.now }
    ensures good { OnOk result
        (IsGoodSet given.now.leaf.now (moves_of_layers given.now.layers.now) value set.now) }
    ensures fault { IfFault result
        (IsBadBy given.now.leaf.now (moves_of_layers given.now.layers.now) value number set.now) }
{
    let members = StateSet::new(alloc, set)?;
    let Some(fault) = left_by(alloc, given, &members, number)? else {
        return Ok(());
    };
    if is_settled(given, &members) {
        return Ok(());
    }
    Err(Failure::Fault(fault))
}
