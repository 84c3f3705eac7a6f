//! Which rule a net breaks first.

ghost use Rattle.std.specs.Prelude.{◌≡◌, ◌<◌, ◌==◌, not, length, All, IfSome, IfNone, position};
ghost use Rattle.pop_io.specs.Names.{variable_name};
ghost use Rattle.pop_leaf.specs.FirstFault.{is_bad_name, first_bad_name};
ghost use Rattle.pop_leaf.specs.LeafModel.{IsLeaf};
ghost use Rattle.pop_leaf.specs.NetModel.{helpers_of, is_wide_leaf};
ghost use Rattle.pop_net.specs.NetFaults.{fault_of_net, first_wide_leaf};

use crate::combination::combination_fault;
use crate::fault::NetFault;
use pop_io::{Text, VARIABLE_LIMIT, is_among, is_variable_name};
use pop_leaf::{ITEM_LIMIT, Item, LEAF_LIMIT, Leaf, WIDE_LEAF_LIMIT};

/// Leaves are valid by their type; if no rule is broken, all of them were looked at.
pub(crate) fn net_fault(vars: &[Text], leaves: &[Leaf], combine: &[Item]) -> Option<NetFault>
    ensures first { result
        ≡ fault_of_net (record { variables = vars.now; leaves = leaves.now; combine = combine.now }) }
    ensures formed { IfNone result (All IsLeaf leaves.now) }
{
    if vars.len() < 1 || VARIABLE_LIMIT < vars.len() {
        return Some(NetFault::Vars(vars.len() as u64));
    }
    if let Some(k) = bad_variable_name(vars) {
        return Some(NetFault::VarName(k as u32));
    }
    if leaves.len() < 1 || LEAF_LIMIT < leaves.len() {
        return Some(NetFault::Leaves(leaves.len() as u64));
    }
    if let Some(i) = bad_leaf(leaves, vars.len()) {
        return Some(NetFault::LeafInputs(i as u8));
    }
    if combine.len() < 1 || ITEM_LIMIT < combine.len() {
        return Some(NetFault::Items(combine.len() as u64));
    }
    if let Some(fault) = combination_fault(leaves.len() as u8, combine) {
        return Some(NetFault::from(fault));
    }
    if let Some(i) = other_helpers(leaves) {
        return Some(NetFault::LeafHelpers(i as u8));
    }
    let wide = wide_leaf(leaves)?;
    Some(NetFault::Wide(wide as u8))
}

/// The first leaf whose number of helpers isn't that of leaf 0.
fn other_helpers(leaves: &[Leaf]) -> Option<usize>
    ensures first { result ≡ position (λ leaf. not (length leaf.helpers == helpers_of leaves.now)) leaves.now }
    ensures bound { IfSome result (λ i. i < length leaves.now) }
{
    let first = leaves.first()?.helper_count();
    leaves
        .iter()
        .position(|leaf| !(leaf.helper_count() == first))
}

/// The first wide leaf, if there are too many leaves for one. It allocates nothing.
pub fn wide_leaf(leaves: &[Leaf]) -> Option<usize>
    ensures first { result ≡ first_wide_leaf leaves.now }
    ensures bound { IfSome result (λ i. i < length leaves.now) }
{
    if WIDE_LEAF_LIMIT < leaves.len() {
        first_wide(leaves)
    } else {
        None
    }
}

fn first_wide(leaves: &[Leaf]) -> Option<usize>
    ensures first { result ≡ position is_wide_leaf leaves.now }
    ensures bound { IfSome result (λ i. i < length leaves.now) }
{
    leaves.iter().position(|leaf| leaf.is_wide())
}

fn bad_variable_name(names: &[Text]) -> Option<usize>
    ensures first { result ≡ first_bad_name variable_name names.now }
    ensures bound { IfSome result (λ k. k < length names.now) }
{
    (0..names.len()).find(|k| is_bad_variable_name(names, *k))
}

fn is_bad_variable_name(names: &[Text], k: usize) -> bool
    requires { k < length names.now }
    ensures { result ≡ is_bad_name variable_name names.now k }
{
    !is_variable_name(names[k].as_str()) || is_among(&names[..k], names[k].as_str().as_bytes())
}

fn bad_leaf(leaves: &[Leaf], inputs: usize) -> Option<usize>
    ensures first { result ≡ position (λ leaf. not (length leaf.inputs == inputs)) leaves.now }
    ensures bound { IfSome result (λ i. i < length leaves.now) }
    ensures formed { IfNone result (All IsLeaf leaves.now) }
{
    for (i, leaf) in leaves.iter().enumerate() {
        if leaf.input_count() as usize != inputs {
            return Some(i);
        }
    }
    None
}
