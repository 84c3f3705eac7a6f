//! Which predicates have no built net.

ghost use Rattle.std.specs.Prelude.{◌≡◌, ◌≤◌, ◌<◌, ◌++◌, length, OnOk, IfOk, IfSome};
ghost use Rattle.pres_ast.specs.TreeOf.{tree_of};
ghost use Rattle.pres_ast.specs.PredTree.{LessThan};
ghost use Rattle.comp_net.specs.Atoms.{AreShort, atom_size, rest_size, is_none as has_none};
ghost use Rattle.comp_net.specs.CompileFaults.{fault_of_sizes, fault_in, sizes_of, missing_of, size_fault};
ghost use Rattle.comp_net.specs.CompileFaults.{first_missing, first_size_over, first_wide_size};

use crate::choice::{LessLeaf, NetLeaves, greatest_narrow_size, greatest_size, less_leaf};
use crate::fault::CompileFault;
use crate::limits::COUNT_LIMIT;
use comp_flock::prefix_states;
use comp_powers::powers_states;
use comp_threshold::width;
use pop_io::{NoMemory, VARIABLE_LIMIT};
use pop_net::{LEAF_LIMIT, WIDE_LEAF_LIMIT};
use pres_ast::{Pred, Tree};
use std::alloc::Global;

/// The first reason not to build a net, if there is one.
pub(crate) fn fault_of(
    alloc: Global,
    choice: NetLeaves,
    pred: &Pred,
) -> Result<Option<CompileFault>, NoMemory>
    ensures { IfOk result (λ fault. fault ≡ fault_in choice pred.now.tree) }
{
    let tree = pred.tree();
    let mut missing = Vec::new(alloc);
    push_missing(&mut missing, choice, tree)?;
    let mut sizes = Vec::new(alloc);
    push_sizes(&mut sizes, choice, tree)?;
    Ok(fault_by(choice, missing.as_slice(), sizes.as_slice()))
}

/// The size of the leaf of an atom `Less`.
fn less_size(choice: NetLeaves, coefs: &[i64], bound: i64) -> u64
    requires { length coefs.now ≤ VARIABLE_LIMIT }
    ensures { result ≡ atom_size choice (LessThan coefs.now bound) }
{
    match less_leaf(choice, coefs, bound) {
        LessLeaf::Threshold => width(coefs, bound),
        LessLeaf::Flock(_) => 0,
        LessLeaf::Offset(power) => u64::from(power) + 2,
        LessLeaf::Prefix(top) => u64::from(prefix_states(bound, top)),
        LessLeaf::Powers(range) => u64::from(powers_states(coefs, range)),
        LessLeaf::NoLeaf => 0,
    }
}

/// The size of the leaf of an atom `Rest`.
fn size_of_rest(choice: NetLeaves, modulus: u32) -> u64
    ensures { result ≡ rest_size choice modulus }
{
    match choice {
        NetLeaves::Plain | NetLeaves::Flocks => 0,
        NetLeaves::Alone | NetLeaves::Helped => u64::from(modulus) + 2,
    }
}

fn is_none(leaf: LessLeaf) -> bool
    ensures { result ≡ has_none leaf }
{
    matches!(leaf, LessLeaf::NoLeaf)
}

/// Adds for each atom whether it has no leaf, from left to right.
fn push_missing(missing: &mut Vec<bool>, choice: NetLeaves, tree: &Tree) -> Result<(), NoMemory>
    ensures { OnOk result (missing.new.items ≡ missing.old.items ++ missing_of choice (tree_of tree.now)) }
{
    match tree {
        Tree::Less { coefs, bound } => {
            missing.push(is_none(less_leaf(choice, coefs.as_slice(), *bound)))?;
        }
        Tree::Rest { .. } => missing.push(false)?,
        Tree::Not(p) => push_missing(missing, choice, p)?,
        Tree::And(p, q) => {
            push_missing(missing, choice, p)?;
            push_missing(missing, choice, q)?;
        }
        Tree::Or(p, q) => {
            push_missing(missing, choice, p)?;
            push_missing(missing, choice, q)?;
        }
    }
    Ok(())
}

/// Adds the size of each atom's leaf, from left to right.
fn push_sizes(sizes: &mut Vec<u64>, choice: NetLeaves, tree: &Tree) -> Result<(), NoMemory>
    requires { AreShort (tree_of tree.now) }
    ensures { OnOk result (sizes.new.items ≡ sizes.old.items ++ sizes_of choice (tree_of tree.now)) }
{
    match tree {
        Tree::Less { coefs, bound } => sizes.push(less_size(choice, coefs.as_slice(), *bound))?,
        Tree::Rest { modulus, .. } => sizes.push(size_of_rest(choice, *modulus))?,
        Tree::Not(p) => push_sizes(sizes, choice, p)?,
        Tree::And(p, q) => {
            push_sizes(sizes, choice, p)?;
            push_sizes(sizes, choice, q)?;
        }
        Tree::Or(p, q) => {
            push_sizes(sizes, choice, p)?;
            push_sizes(sizes, choice, q)?;
        }
    }
    Ok(())
}

/// What is wrong with atoms of which some have no leaf, and the others' leaves these sizes.
fn fault_by(choice: NetLeaves, missing: &[bool], sizes: &[u64]) -> Option<CompileFault>
    requires few { length sizes.now ≤ COUNT_LIMIT }
    requires same { length missing.now ≡ length sizes.now }
    ensures { result ≡ fault_of_sizes choice missing.now sizes.now }
{
    if LEAF_LIMIT < sizes.len() {
        return Some(CompileFault::ManyAtoms(sizes.len() as u32));
    }
    if let Some(atom) = first_without(missing) {
        return Some(CompileFault::NoRange(atom as u32));
    }
    if let Some(atom) = first_over(sizes, greatest_size(choice)) {
        return Some(too_large(choice, atom as u32, sizes[atom]));
    }
    let atom = first_wide(choice, sizes)?;
    Some(CompileFault::WideNet(atom as u32))
}

/// The fault of an atom with a size over the limit.
fn too_large(choice: NetLeaves, atom: u32, size: u64) -> CompileFault
    ensures { result ≡ size_fault choice atom size }
{
    match choice {
        NetLeaves::Plain | NetLeaves::Flocks => CompileFault::TooWide { atom, s: size },
        NetLeaves::Alone | NetLeaves::Helped => CompileFault::ManyStates { atom, states: size },
    }
}

/// The first atom without a leaf.
fn first_without(missing: &[bool]) -> Option<usize>
    ensures first { result ≡ first_missing missing.now }
    ensures bound { IfSome result (λ i. i < length missing.now) }
{
    missing.iter().position(|m| *m)
}

/// The first size over a limit.
fn first_over(sizes: &[u64], limit: u64) -> Option<usize>
    ensures first { result ≡ first_size_over limit sizes.now }
    ensures bound { IfSome result (λ i. i < length sizes.now) }
{
    sizes.iter().position(|s| limit < *s)
}

/// Among too many atoms for a wide leaf, the first that makes one.
fn first_wide(choice: NetLeaves, sizes: &[u64]) -> Option<usize>
    ensures first { result ≡ first_wide_size choice sizes.now }
    ensures bound { IfSome result (λ i. i < length sizes.now) }
{
    if WIDE_LEAF_LIMIT < sizes.len() {
        first_over(sizes, greatest_narrow_size(choice))
    } else {
        None
    }
}
