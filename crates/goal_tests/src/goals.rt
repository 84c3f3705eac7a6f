//! An epidemic in which two of the ill may cure one: layers of the first move, and sets of one state.

ghost use Rattle.std.specs.Prelude.{IfSome};
ghost use Rattle.cert_layers.specs.LayerFaults.{AreLayersWithin};
ghost use Rattle.cert_sets.specs.SetFaults.{AreSetsWithin};

use cert_base::Layer;
use cert_sets::{GoalMoves, SetFault, checked_sets, kept_leaf};
use pop_io::{Failure, List};
use pop_leaf::Leaf;
use sample_nets::{leaf_of, list, step};
use std::alloc::Global;

fn leaf(alloc: Global) -> Option<Leaf> {
    let moves = [step(0, 1, 1, 1), step(1, 1, 1, 0), step(0, 0, 0, 0)];
    leaf_of(
        alloc,
        &["well", "ill"],
        &moves,
        &[0, 1],
        &[false, true],
        &[],
    )
}

/// One layer of the first move, or none.
fn layers(alloc: Global, some: bool) -> Option<List<Layer>>
    ensures { IfSome result AreLayersWithin }
{
    let mut layers = Vec::new(alloc);
    if some {
        let moves = list(alloc, &[0u32]).ok()?;
        let weights = list(alloc, &[1i64, 0]).ok()?;
        layers.push(Layer { moves, weights }).ok()?;
    }
    Some(List::from_vec(layers))
}

fn sets(alloc: Global, state: u16) -> Option<List<List<u16>>>
    ensures { IfSome result AreSetsWithin }
{
    let mut sets = Vec::new(alloc);
    sets.push(list(alloc, &[state]).ok()?).ok()?;
    Some(List::from_vec(sets))
}

/// Why the set of one state isn't good, if it isn't.
fn fault(alloc: Global, some: bool, value: bool, state: u16) -> Option<Option<Failure<SetFault>>> {
    let leaf = leaf(alloc)?;
    let layers = layers(alloc, some)?;
    let sets = sets(alloc, state)?;
    let kept = kept_leaf(alloc, &leaf, &layers).ok()?;
    let given = GoalMoves {
        leaf: &leaf,
        layers: &layers,
        kept: &kept,
    };
    Some(checked_sets(alloc, &given, value, &sets).err())
}

#[test]
fn sets_that_stay(rt: HostRuntime) {
    let leaves = Failure::Fault(SetFault::Leaves {
        set: 0,
        move_number: 1,
    });
    let output = Failure::Fault(SetFault::Output { set: 0, state: 1 });
    assert!(rt; fault(rt.alloc(), true, false, 0) == Some(None));
    assert!(rt; fault(rt.alloc(), true, true, 1) == Some(Some(leaves)));
    assert!(rt; fault(rt.alloc(), false, true, 1) == Some(None));
    assert!(rt; fault(rt.alloc(), false, false, 1) == Some(Some(output)));
}
