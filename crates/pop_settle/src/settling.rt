//! Settling a crowd.

ghost use Rattle.std.specs.Prelude.{◌≡◌, ℕ, ◌+◌, ◌<◌, ◌≤◌, List, length, Some, IfOk, IfSome, OnOk};
ghost use Rattle.std.specs.Prelude.{slice_get};
ghost use Rattle.pop_leaf.specs.NetModel.{IsNet};
ghost use Rattle.pop_net.specs.Lanes.{crowd_of, AreValid};
ghost use Rattle.pop_crowd.specs.declared.limits.TheConstants.{AGENT_LIMIT};
ghost use Rattle.pop_settle.specs.Settlement.{states_in};
ghost use Rattle.pop_settle.specs.Settling.{HasLayers};
ghost use Rattle.pop_settle.specs.Settles.{Settles};
ghost use Rattle.pop_settle.specs.Groups.{AreGroups};
ghost use Rattle.pop_settle.specs.Search.{FindsTake};
ghost use Rattle.pop_settle.specs.Walks.{IsQuietBefore, WalksOn};

use crate::bound::most_takes;
use crate::fault::SettleFault;
use crate::groups::Groups;
use crate::layered::{LayerPlace, Layered, MoveList};
use crate::limits::TAKE_LIMIT;
use crate::runs::run_ends;
use crate::take::{Settled, Take};
use crate::walk::Walk;
use cert_base::Proof;
use pop_crowd::Crowd;
use pop_io::{Failure, List, NoMemory};
use pop_net::Net;
use std::alloc::Global;

/// Takes the moves by the proof's layers until none can be taken (layered termination of Blondin, Esparza, Jaax,
/// Meyer 2017). The definition looks at all leaves and layers each time; this call never goes back to an earlier one.
pub fn settle(
    alloc: Global,
    net: &Net,
    proof: &Proof,
    crowd: Crowd,
) -> Result<Settled, Failure<SettleFault>>
    requires layers { HasLayers net.now proof.now }
    requires valid { AreValid net.now crowd }
    ensures { Settles net.now proof.now crowd result }
{
    // What the invariant says is known from here on.
    let _formed = net.leaf_count();
    let most = most_takes(proof, crowd.len());
    if TAKE_LIMIT < most {
        return Err(Failure::Fault(SettleFault::Long(most)));
    }
    let mut walk = Walk::of_crowd(alloc, &crowd)?;
    let by = Layered { net, proof };
    settle_leaves(alloc, &by, &mut walk)?;
    let Walk { words, takes } = walk;
    Ok(Settled {
        takes: List::from_vec(takes),
        crowd: Crowd::of_words(net, List::from_vec(words)),
    })
}

fn settle_leaves(alloc: Global, by: &Layered<'_>, walk: &mut Walk) -> Result<(), NoMemory>
    requires layers { HasLayers by.now.net.now by.now.proof.now }
    requires valid { AreValid by.now.net.now walk.old.words.items }
    requires few { length walk.old.words.items ≤ AGENT_LIMIT }
    ensures walked { OnOk result (WalksOn by.now.net.now by.now.proof.now walk.old walk.new) }
    ensures quiet { OnOk result
        (IsQuietBefore by.now.net.now by.now.proof.now (crowd_of by.now.net.now walk.new.words.items)
        (length by.now.net.now.leaves) 0) }
{
    for leaf in 0..by.net.leaf_count() {
        settle_leaf(alloc, by, leaf, walk)?;
    }
    Ok(())
}

fn settle_leaf(alloc: Global, by: &Layered<'_>, leaf: u8, walk: &mut Walk) -> Result<(), NoMemory>
    requires formed { IsNet by.now.net.now }
    requires layers { HasLayers by.now.net.now by.now.proof.now }
    requires leaf_in { leaf < length by.now.net.now.leaves }
    requires valid { AreValid by.now.net.now walk.old.words.items }
    requires few { length walk.old.words.items ≤ AGENT_LIMIT }
    requires quiet { IsQuietBefore by.now.net.now by.now.proof.now (crowd_of by.now.net.now walk.old.words.items)
        leaf 0 }
    ensures walked { OnOk result (WalksOn by.now.net.now by.now.proof.now walk.old walk.new) }
    ensures quiet { OnOk result
        (IsQuietBefore by.now.net.now by.now.proof.now (crowd_of by.now.net.now walk.new.words.items) (leaf + 1) 0) }
{
    let mut groups = Groups::of_leaf(alloc, by.net, walk.words.as_slice(), leaf)?;
    let part = &by.proof.leaves.as_slice()[leaf as usize];
    for (number, layer) in part.layers.as_slice().iter().enumerate() {
        let place = LayerPlace {
            leaf,
            number,
            layer,
        };
        settle_layer(alloc, by, &place, &mut groups, walk)?;
    }
    Ok(())
}

/// Takes the moves of the layer in this place, as long as agents can take one.
fn settle_layer(
    alloc: Global,
    by: &Layered<'_>,
    place: &LayerPlace<'_>,
    groups: &mut Groups,
    walk: &mut Walk,
) -> Result<(), NoMemory>
    requires formed { IsNet by.now.net.now }
    requires layers { HasLayers by.now.net.now by.now.proof.now }
    requires leaf_in { place.now.leaf < length by.now.net.now.leaves }
    requires layer_is { IfSome (slice_get by.now.proof.now.leaves place.now.leaf)
        (λ part. slice_get part.layers place.now.number ≡ Some place.now.layer.now) }
    requires valid { AreValid by.now.net.now walk.old.words.items }
    requires count { IfSome (slice_get by.now.net.now.leaves place.now.leaf)
        (λ l. length groups.old.groups.items ≡ length l.states) }
    requires grouped { AreGroups (states_in place.now.leaf (crowd_of by.now.net.now walk.old.words.items))
        groups.old.groups.items }
    requires quiet { IsQuietBefore by.now.net.now by.now.proof.now (crowd_of by.now.net.now walk.old.words.items)
        place.now.leaf place.now.number }
    ensures walked { OnOk result (WalksOn by.now.net.now by.now.proof.now walk.old walk.new) }
    ensures count { length groups.new.groups.items ≡ length groups.old.groups.items }
    ensures grouped { OnOk result
        (AreGroups (states_in place.now.leaf (crowd_of by.now.net.now walk.new.words.items)) groups.new.groups.items) }
    ensures quiet { OnOk result
        (IsQuietBefore by.now.net.now by.now.proof.now (crowd_of by.now.net.now walk.new.words.items)
        place.now.leaf (place.now.number + 1)) }
{
    let leaf = by.net.leaf(place.leaf);
    let moves = place.layer.moves.as_slice();
    let ends = run_ends(alloc, leaf, moves)?;
    let list = MoveList {
        leaf,
        moves,
        ends: ends.as_slice(),
    };
    'takes: while let Some(take) = next_take(&list, place.leaf, groups)? {
        walk.make(by.net, take)?;
    }
    Ok(())
}

/// The first move of a list that agents can take, taken by the least that can. Moves that begin with a state that
/// nobody holds are skipped to the end of their run.
fn next_take(list: &MoveList<'_>, number: u8, groups: &mut Groups) -> Result<Option<Take>, NoMemory>
    requires { length groups.old.groups.items ≡ length list.now.leaf.now.states }
    ensures count { length groups.new.groups.items ≡ length groups.old.groups.items }
    ensures found { IfOk result (λ found. (states : List ℕ) → AreGroups states groups.old.groups.items
        → FindsTake list.now.leaf.now number list.now.moves.now states found groups.new.groups.items) }
{
    let mut place = 0;
    'places: while place < list.moves.len() {
        let step = list.moves[place];
        let t = list.leaf.move_at(step);
        if groups.is_empty(t.p) {
            place = list.ends[place];
            continue;
        }
        if let Some((a, b)) = groups.make(t)? {
            return Ok(Some(Take {
                leaf: number,
                step,
                a,
                b,
            }));
        }
        place += 1;
    }
    Ok(None)
}
