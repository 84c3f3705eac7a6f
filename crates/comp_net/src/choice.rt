//! Which atoms have a leaf of their own.

ghost use Rattle.std.specs.Prelude.{◌≡◌, if◌then◌else◌};
ghost use Rattle.comp_net.specs.Atoms.{less_leaf_for, flock_or_threshold, offset_or, powers_or_none};
ghost use Rattle.comp_net.specs.Atoms.{prefix_or_none, size_limit, narrow_limit, are_alone, leaves_for as leaves_of};
ghost use Rattle.pres_ast.specs.PredTree.{LessThan};
ghost use Rattle.pres_ast.specs.TreeOf.{tree_of};

use crate::limits::NARROW_WIDTH_LIMIT;
use comp_flock::{flock_power, offset_power, prefix_top};
use comp_powers::powers_range;
use comp_threshold::WIDTH_LIMIT;
use pop_net::{NARROW_STATE_LIMIT, STATE_LIMIT};
use pres_ast::Tree;

/// The leaves that are asked for.
#[derive(Clone, Copy, PartialEq, Eq)]
pub enum LeafChoice {
    /// Those of thresholds and remainders.
    Plain,
    /// That of a flock for a flock atom, which says that a sum of variables is at least 2^k: it has k + 2 states and no
    /// width. The plain ones for all others.
    Flocks,
    /// Those with O(log s) states for an atom whose greatest number is s. If each atom counts its agents (`prefix_top`)
    /// or is a remainder, the net has no helpers, and an atom that counts its agents has the leaf of a flock of
    /// prefixes. Otherwise such an atom has the leaf of a flock with an offset, and any other atom `Less` one of powers.
    /// All leaves have as many helpers as the one that needs most.
    Succinct,
}

/// The leaves that the atoms of one net get.
#[derive(Clone, Copy)]
pub(crate) enum NetLeaves {
    /// Those of thresholds and remainders.
    Plain,
    /// That of a flock for a flock atom, and the plain ones for all others.
    Flocks,
    /// Those that need no helpers: that of a flock of prefixes for an atom that counts its agents, and that of a
    /// remainder. Other atoms have none.
    Alone,
    /// That of a flock with an offset for an atom that counts its agents, that of powers for any other atom `Less`, and
    /// that of a remainder, all with equally many helpers.
    Helped,
}

/// The leaf that an atom `Less` gets.
#[derive(Clone, Copy)]
pub(crate) enum LessLeaf {
    Threshold,
    /// That of a flock with this power.
    Flock(u32),
    /// That of a flock with an offset, with this power.
    Offset(u32),
    /// That of a flock of prefixes, where this is the place of the greatest one.
    Prefix(u32),
    /// That of powers with this range.
    Powers(u32),
    /// None is wide enough for its numbers, or none does without helpers.
    NoLeaf,
}

fn by_power(power: Option<u32>) -> LessLeaf
    ensures { result ≡ flock_or_threshold power }
{
    match power {
        Some(power) => LessLeaf::Flock(power),
        None => LessLeaf::Threshold,
    }
}

fn by_range(range: Option<u32>) -> LessLeaf
    ensures { result ≡ powers_or_none range }
{
    match range {
        Some(range) => LessLeaf::Powers(range),
        None => LessLeaf::NoLeaf,
    }
}

/// A flock with an offset has k + 2 states, and powers have 2k + 5 at least.
fn by_offset(power: Option<u32>, other: LessLeaf) -> LessLeaf
    ensures { result ≡ offset_or other power }
{
    match power {
        Some(power) => LessLeaf::Offset(power),
        None => other,
    }
}

fn by_top(top: Option<u32>) -> LessLeaf
    ensures { result ≡ prefix_or_none top }
{
    match top {
        Some(top) => LessLeaf::Prefix(top),
        None => LessLeaf::NoLeaf,
    }
}

/// The leaf of the atom `Less` with these numbers.
pub(crate) fn less_leaf(choice: NetLeaves, coefs: &[i64], bound: i64) -> LessLeaf
    ensures { result ≡ less_leaf_for choice coefs.now bound }
{
    match choice {
        NetLeaves::Plain => LessLeaf::Threshold,
        NetLeaves::Flocks => by_power(flock_power(coefs, bound)),
        NetLeaves::Alone => by_top(prefix_top(coefs, bound)),
        NetLeaves::Helped => by_offset(
            offset_power(coefs, bound),
            by_range(powers_range(coefs, bound)),
        ),
    }
}

/// The greatest size of a leaf.
pub(crate) fn greatest_size(choice: NetLeaves) -> u64
    ensures { result ≡ size_limit choice }
{
    match choice {
        NetLeaves::Plain | NetLeaves::Flocks => WIDTH_LIMIT,
        NetLeaves::Alone | NetLeaves::Helped => STATE_LIMIT as u64,
    }
}

/// The greatest size of a leaf that isn't wide.
pub(crate) fn greatest_narrow_size(choice: NetLeaves) -> u64
    ensures { result ≡ narrow_limit choice }
{
    match choice {
        NetLeaves::Plain | NetLeaves::Flocks => NARROW_WIDTH_LIMIT,
        NetLeaves::Alone | NetLeaves::Helped => NARROW_STATE_LIMIT as u64,
    }
}

/// Whether the atom `Less` with these numbers has a leaf without helpers.
fn is_alone(coefs: &[i64], bound: i64) -> bool
    ensures { result ≡ are_alone (LessThan coefs.now bound) }
{
    prefix_top(coefs, bound).is_some()
}

/// Whether all atoms have one.
fn all_alone(tree: &Tree) -> bool
    ensures { result ≡ are_alone (tree_of tree.now) }
{
    match tree {
        Tree::Less { coefs, bound } => is_alone(coefs.as_slice(), *bound),
        Tree::Rest { .. } => true,
        Tree::Not(p) => all_alone(p),
        Tree::And(p, q) => all_alone(p) && all_alone(q),
        Tree::Or(p, q) => all_alone(p) && all_alone(q),
    }
}

/// The leaves that a predicate's atoms get.
pub(crate) fn leaves_for(choice: LeafChoice, tree: &Tree) -> NetLeaves
    ensures { result ≡ leaves_of choice (tree_of tree.now) }
{
    match choice {
        LeafChoice::Plain => NetLeaves::Plain,
        LeafChoice::Flocks => NetLeaves::Flocks,
        LeafChoice::Succinct => succinct(all_alone(tree)),
    }
}

/// The succinct leaves, by whether all atoms can do without helpers.
fn succinct(alone: bool) -> NetLeaves
    ensures { result ≡ (if alone then NetLeaves.Alone else NetLeaves.Helped) }
{
    if alone {
        NetLeaves::Alone
    } else {
        NetLeaves::Helped
    }
}
