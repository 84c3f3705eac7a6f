//! Combinations in postfix: whether one is a tree, and its value.

ghost use Rattle.std.specs.Prelude.{◌≡◌, ◌↔◌, ℕ, ◌≤◌, ◌<◌, ◌&&◌, ◌∷◌, length, drop, All, Some, None, MatchOption};
ghost use Rattle.std.specs.Prelude.{unwrap_or, false};
ghost use Rattle.std.specs.Bool.{OnTrue};
ghost use Rattle.pop_leaf.specs.NetModel.{after_item, depth_operators, truth, combined};
ghost use Rattle.pop_net.specs.NetFaults.{names_below, are_low, IsTree, fault_of_combination};

use crate::fault::CombinationFault;
use crate::operands::Operands;
use pop_leaf::{DEPTH_LIMIT, ITEM_LIMIT, Item};

/// The first rule that a combination of these leaves breaks. It allocates nothing.
pub fn combination_fault(leaves: u8, combine: &[Item]) -> Option<CombinationFault>
    requires { length combine.now ≤ ITEM_LIMIT }
    ensures first { result ≡ fault_of_combination leaves combine.now }
    // No rule is broken exactly when the combination is one tree, as a net requires.
    ensures none { (result ≡ None) ↔ IsTree leaves combine.now }
{
    let mut depths = Operands::new(0);
    for (k, item) in combine.iter().enumerate() {
        if !put_depth(&mut depths, leaves, *item) {
            return Some(CombinationFault::Item(k as u32));
        }
    }
    if depths.len() == 1 {
        None
    } else {
        Some(CombinationFault::Open(depths.len() as u32))
    }
}

/// Takes an item in, unless it is bad.
pub(crate) fn put_depth(depths: &mut Operands<u8>, leaves: u8, item: Item) -> bool
    requires room { length depths.old < ITEM_LIMIT }
    requires low { All (λ d. d ≤ DEPTH_LIMIT) depths.old }
    ensures good { result ≡ (names_below leaves item && are_low (after_item depth_operators item depths.old)) }
    ensures put { OnTrue result (after_item depth_operators item depths.old ≡ Some depths.new) }
    ensures still_low { All (λ d. d ≤ DEPTH_LIMIT) depths.new }
{
    if !is_below(item, leaves) {
        return false;
    }
    match take_depth(depths, item) {
        Some(depth) if depth <= DEPTH_LIMIT => {
            depths.push(depth);
            true
        }
        _ => false,
    }
}

/// Whether an item is an operator or names one of so many leaves.
fn is_below(item: Item, leaves: u8) -> bool
    ensures { result ≡ names_below leaves item }
{
    match item {
        Item::Leaf(i) => i < leaves,
        Item::Not | Item::And | Item::Or => true,
    }
}

/// Removes an item's operands and gives the depth of its tree.
fn take_depth(depths: &mut Operands<u8>, item: Item) -> Option<u8>
    requires { All (λ d. d ≤ DEPTH_LIMIT) depths.old }
    ensures found { MatchOption result (after_item depth_operators item depths.old ≡ None)
        (λ depth. after_item depth_operators item depths.old ≡ Some (depth ∷ depths.new)) }
    ensures rest { (n : ℕ) × (depths.new ≡ drop n depths.old) }
{
    match item {
        Item::Leaf(_) => Some(1),
        Item::Not => Some(depths.pop()? + 1),
        Item::And | Item::Or => {
            let second = depths.pop()?;
            let first = depths.pop()?;
            Some(first.max(second) + 1)
        }
    }
}

/// The value of a combination at the leaves' outputs; false if it is not one tree.
pub(crate) fn value_of(combine: &[Item], outputs: &[bool]) -> bool
    requires { length combine.now ≤ ITEM_LIMIT }
    ensures { result ≡ unwrap_or (combined (truth outputs.now) combine.now) false }
{
    let mut values = Operands::new(false);
    for item in combine {
        match take_value(&mut values, outputs, *item) {
            Some(value) => values.push(value),
            None => return false,
        }
    }
    values.len() == 1 && values.pop() == Some(true)
}

/// Removes an item's operands and gives its value.
fn take_value(values: &mut Operands<bool>, outputs: &[bool], item: Item) -> Option<bool>
    ensures found { MatchOption result (after_item (truth outputs.now) item values.old ≡ None)
        (λ value. after_item (truth outputs.now) item values.old ≡ Some (value ∷ values.new)) }
    ensures fewer { length values.new ≤ length values.old }
{
    match item {
        Item::Leaf(i) => Some(outputs.get(i as usize).copied().unwrap_or(false)),
        Item::Not => Some(!values.pop()?),
        Item::And => {
            let second = values.pop()?;
            let first = values.pop()?;
            Some(first && second)
        }
        Item::Or => {
            let second = values.pop()?;
            let first = values.pop()?;
            Some(first || second)
        }
    }
}
