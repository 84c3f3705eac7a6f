//! The hushed net.

ghost use Rattle.std.specs.Prelude.{◌≡◌, length, IfOk};
ghost use Rattle.pop_settle.specs.HushedNet.{hushed_leaves, hushed_net};

use cert_base::Proof;
use cert_goals::listed_moves;
use pop_io::{List, NoMemory, Text};
use pop_leaf::hushed_leaf;
use pop_net::{Item, Leaf, Net};
use std::alloc::Global;

/// The net in which each leaf keeps the moves of its layers alone, and all others are silent.
pub(crate) fn hushed_net(alloc: Global, net: &Net, proof: &Proof) -> Result<Net, NoMemory>
    requires { length proof.now.leaves ≡ length net.now.leaves }
    ensures { IfOk result (λ made. made ≡ hushed_net net.now proof.now) }
{
    // What the invariant says is known from here on.
    let _formed = net.leaf_count();
    let leaves = hushed_leaves(alloc, net, proof)?;
    let vars = copy_names(alloc, net.var_names().as_slice())?;
    let combine = copy_items(alloc, net)?;
    Ok(Net::of_valid(vars, leaves, combine))
}

fn hushed_leaves(alloc: Global, net: &Net, proof: &Proof) -> Result<List<Leaf>, NoMemory>
    requires { length proof.now.leaves ≡ length net.now.leaves }
    ensures { IfOk result (λ made. made ≡ hushed_leaves net.now.leaves proof.now.leaves) }
{
    let parts = proof.leaves.as_slice();
    let mut leaves = Vec::new(alloc);
    for i in 0..net.leaf_count() {
        let moves = listed_moves(alloc, parts[i as usize].layers.as_slice())?;
        leaves.push(hushed_leaf(alloc, net.leaf(i), moves.as_slice())?)?;
    }
    Ok(List::from_vec(leaves))
}

fn copy_names(alloc: Global, names: &[Text]) -> Result<List<Text>, NoMemory>
    ensures { IfOk result (λ copies. copies ≡ names.now) }
{
    let mut copies = Vec::new(alloc);
    for name in names {
        copies.push(name.copy(alloc)?)?;
    }
    Ok(List::from_vec(copies))
}

fn copy_items(alloc: Global, net: &Net) -> Result<List<Item>, NoMemory>
    ensures { IfOk result (λ items. items ≡ net.now.combine) }
{
    let mut items = Vec::new(alloc);
    for i in 0..net.item_count() {
        items.push(net.item(i))?;
    }
    Ok(List::from_vec(items))
}
