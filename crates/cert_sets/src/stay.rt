//! Whether a set stays.

ghost use Rattle.std.specs.Prelude.{◌≡◌, IfOk, MatchBool};
ghost use Rattle.pop_leaf.specs.LeafModel.{IsLeaf};
ghost use Rattle.pop_leaf.specs.Hushed.{hushed};
ghost use Rattle.cert_base.specs.ValidLayers.{moves_of_layers};
ghost use Rattle.theory_sets.specs.Stays.{escapes, SleepIn};
ghost use Rattle.cert_sets.specs.SetTests.{FindsWoken};
ghost use Rattle.cert_sets.specs.SetSearch.{FindsLeft, fault_of_woken};

use crate::escape::{escapes_of, first_unguarded};
use crate::fault::SetFault;
use crate::goal_moves::GoalMoves;
use crate::sleep::first_woken;
use cert_traps::StateSet;
use pop_io::NoMemory;
use pop_leaf::{Leaf, hushed_leaf};
use std::alloc::Global;

/// Whether no move outside these that takes two states of the set wakes one of them there.
pub(crate) fn is_settled(given: &GoalMoves<'_>, members: &StateSet) -> bool
    ensures { MatchBool result
        (SleepIn given.now.leaf.now members.now (moves_of_layers given.now.layers.now))
        (¬ SleepIn given.now.leaf.now members.now (moves_of_layers given.now.layers.now)) }
{
    first_woken(given.leaf, given.kept, members).is_none()
}

/// Why the set isn't guarded, if it isn't.
pub(crate) fn left_by(
    alloc: Global,
    given: &GoalMoves<'_>,
    members: &StateSet,
    number: u32,
) -> Result<Option<SetFault>, NoMemory>
    ensures { IfOk result
        (FindsLeft given.now.leaf.now (moves_of_layers given.now.layers.now) number members.now) }
{
    if let Some(t) = first_unguarded(given.leaf, given.kept, members) {
        return Ok(Some(SetFault::Leaves {
            set: number,
            move_number: t,
        }));
    }
    let found = woken_escape(alloc, given.leaf, members)?;
    Ok(woken_fault(number, found))
}

/// The least move between two agents of the set that wakes one that leads out, and the least that it wakes.
fn woken_escape(
    alloc: Global,
    leaf: &Leaf,
    members: &StateSet,
) -> Result<Option<(u32, u32)>, NoMemory>
    requires { IsLeaf leaf.now }
    ensures { IfOk result (FindsWoken leaf.now (hushed leaf.now (escapes leaf.now members.now)) members.now) }
{
    let numbers = escapes_of(alloc, leaf, members)?;
    let awake = hushed_leaf(alloc, leaf, numbers.as_slice())?;
    Ok(first_woken(leaf, &awake, members))
}

fn woken_fault(number: u32, found: Option<(u32, u32)>) -> Option<SetFault>
    ensures { result ≡ fault_of_woken number found }
{
    let (t, u) = found?;
    Some(SetFault::Wakes {
        set: number,
        move_number: t,
        woken: u,
    })
}
