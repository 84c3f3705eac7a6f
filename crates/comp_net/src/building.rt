//! The net and its proof, put together.

ghost use Rattle.std.specs.Prelude.{◌≡◌, ◌≤◌, ◌<◌, ◌+◌, None, All, length, nat_abs, OnOk, IfOk};
ghost use Rattle.pop_io.specs.Names.{AreNames, variable_name};
ghost use Rattle.pres_ast.specs.TreeOf.{tree_of};
ghost use Rattle.pres_ast.specs.PredTree.{LessThan, Congruent};
ghost use Rattle.pres_ast.specs.PredModel.{IsPred, IsAtomSum};
ghost use Rattle.pres_ast.specs.declared.limits.TheConstants.{BOUND_LIMIT};
ghost use Rattle.pop_leaf.specs.declared.limits.TheConstants.{LEAF_LIMIT};
ghost use Rattle.pop_leaf.specs.NetModel.{IsNet};
ghost use Rattle.pop_leaf.specs.Reaction.{IsSingle};
ghost use Rattle.cert_base.specs.ProofBound.{proof_bound};
ghost use Rattle.cert_base.specs.ProofLimits.{IsProofWithin};
ghost use Rattle.cert_base.specs.ValidProof.{ValidProof};
ghost use Rattle.pop_checker.specs.Sound.{IsRight};
ghost use Rattle.theory_tame.specs.Laws.{AreTameEach};
ghost use Rattle.comp_net.specs.Atoms.{atoms, most_helpers, AreBuildable};
ghost use Rattle.comp_threshold.specs.declared.limits.TheConstants.{WIDTH_LIMIT};
ghost use Rattle.comp_threshold.specs.ThresholdLeaf.{threshold_width};
ghost use Rattle.comp_threshold.specs.Built.{IsThreshold};
ghost use Rattle.comp_net.specs.BuiltNet.{net_of};
ghost use Rattle.comp_net.specs.BuiltBound.{bound_in};
ghost use Rattle.comp_net.specs.Building.{IsAtom, AddsLeaf, AddsTree};
ghost use Rattle.comp_net.specs.CompileFaults.{fault_in};

use crate::choice::{LessLeaf, NetLeaves, less_leaf};
use crate::helpers::count_helpers;
use cert_base::{LeafProof, Proof};
use comp_flock::{flock, offset_flock, offset_helper_count, prefix_flock};
use comp_powers::powers;
use comp_remainder::remainder;
use comp_threshold::{ThresholdFault, threshold};
use pop_io::{Failure, List, NoMemory, Text};
use pop_net::{HELPER_LIMIT, Item, Leaf, Net};
use pres_ast::{Pred, Tree};
use std::alloc::Global;

/// What was built of the atoms so far: a leaf and a proof for each, and the items that combine them.
#[derive(Drop)]
struct Built {
    leaves: Vec<Leaf>,
    parts: Vec<LeafProof>,
    items: Vec<Item>,
}

impl Built {
    fn push_atom(&mut self, leaf: Leaf, part: LeafProof) -> Result<(), NoMemory>
        requires { length self.old.leaves.items < LEAF_LIMIT }
        ensures { OnOk result (AddsLeaf leaf part self.old self.new) }
    {
        let item = Item::Leaf(self.leaves.len() as u8);
        self.leaves.push(leaf)?;
        self.parts.push(part)?;
        self.items.push(item)?;
        Ok(())
    }

    fn push_less(
        &mut self,
        alloc: Global,
        choice: NetLeaves,
        helpers: u32,
        coefs: &[i64],
        bound: i64,
    ) -> Result<(), NoMemory>
        requires few { length self.old.leaves.items < LEAF_LIMIT }
        requires atom { AreBuildable choice (LessThan coefs.now bound) }
        requires enough { most_helpers choice (LessThan coefs.now bound) ≤ helpers }
        requires most { helpers ≤ HELPER_LIMIT }
        ensures { OnOk result (AddsTree choice helpers (LessThan coefs.now bound) self.old self.new) }
    {
        let (leaf, part) = less(alloc, choice, helpers, coefs, bound)?;
        self.push_atom(leaf, part)
    }

    fn push_rest(
        &mut self,
        alloc: Global,
        choice: NetLeaves,
        helpers: u32,
        coefs: &[i64],
        modulus: u32,
        rest: u32,
    ) -> Result<(), NoMemory>
        requires few { length self.old.leaves.items < LEAF_LIMIT }
        requires atom { AreBuildable choice (Congruent coefs.now modulus rest) }
        requires most { helpers ≤ HELPER_LIMIT }
        ensures { OnOk result (AddsTree choice helpers (Congruent coefs.now modulus rest) self.old self.new) }
    {
        let (leaf, part) = remainder(alloc, coefs, modulus, rest, helpers)?;
        self.push_atom(leaf, part)
    }

    /// The atoms of a tree from left to right, and the tree in postfix.
    fn push_tree(
        &mut self,
        alloc: Global,
        choice: NetLeaves,
        helpers: u32,
        tree: &Tree,
    ) -> Result<(), NoMemory>
        requires few { length self.old.leaves.items + length (atoms (tree_of tree.now)) ≤ LEAF_LIMIT }
        requires atoms { AreBuildable choice (tree_of tree.now) }
        requires enough { most_helpers choice (tree_of tree.now) ≤ helpers }
        requires most { helpers ≤ HELPER_LIMIT }
        ensures { OnOk result (AddsTree choice helpers (tree_of tree.now) self.old self.new) }
    {
        match tree {
            Tree::Less { coefs, bound } => {
                self.push_less(alloc, choice, helpers, coefs.as_slice(), *bound)?;
            }
            Tree::Rest {
                coefs,
                modulus,
                rest,
            } => self.push_rest(alloc, choice, helpers, coefs.as_slice(), *modulus, *rest)?,
            Tree::Not(p) => {
                self.push_tree(alloc, choice, helpers, p)?;
                self.items.push(Item::Not)?;
            }
            Tree::And(p, q) => {
                self.push_tree(alloc, choice, helpers, p)?;
                self.push_tree(alloc, choice, helpers, q)?;
                self.items.push(Item::And)?;
            }
            Tree::Or(p, q) => {
                self.push_tree(alloc, choice, helpers, p)?;
                self.push_tree(alloc, choice, helpers, q)?;
                self.items.push(Item::Or)?;
            }
        }
        Ok(())
    }
}

/// The leaf of a threshold that isn't too wide.
fn narrow(alloc: Global, coefs: &[i64], bound: i64) -> Result<(Leaf, LeafProof), NoMemory>
    requires sum { IsAtomSum coefs.now }
    requires bound { nat_abs bound ≤ BOUND_LIMIT }
    requires narrow { threshold_width coefs.now bound ≤ WIDTH_LIMIT }
    ensures { IfOk result (λ both. IsThreshold coefs.now bound both.0 both.1) }
{
    match threshold(alloc, coefs, bound) {
        Ok(both) => Ok(both),
        Err(Failure::Fault(ThresholdFault::TooWide(_))) => unreachable!(),
        Err(Failure::NoMemory) => Err(NoMemory),
    }
}

/// The leaf of an atom `Less`, with spare helpers where it needs less than there are.
fn less(
    alloc: Global,
    choice: NetLeaves,
    helpers: u32,
    coefs: &[i64],
    bound: i64,
) -> Result<(Leaf, LeafProof), NoMemory>
    requires atom { AreBuildable choice (LessThan coefs.now bound) }
    requires enough { most_helpers choice (LessThan coefs.now bound) ≤ helpers }
    requires most { helpers ≤ HELPER_LIMIT }
    ensures { IfOk result (λ both. IsAtom choice helpers (LessThan coefs.now bound) both.0 both.1) }
{
    match less_leaf(choice, coefs, bound) {
        LessLeaf::Threshold => narrow(alloc, coefs, bound),
        LessLeaf::Flock(power) => flock(alloc, coefs, power),
        LessLeaf::Offset(power) => {
            let spare = helpers - offset_helper_count(bound, power);
            offset_flock(alloc, coefs, bound, power, spare)
        }
        LessLeaf::Prefix(top) => prefix_flock(alloc, coefs, bound, top),
        LessLeaf::Powers(range) => powers(alloc, coefs, bound, range, helpers - (range + 2)),
        LessLeaf::NoLeaf => unreachable!(),
    }
}

fn copy_names(alloc: Global, names: &List<Text>) -> Result<List<Text>, NoMemory>
    ensures { IfOk result (λ copies. copies ≡ names.now) }
{
    let mut copies = Vec::new(alloc);
    for name in names.as_slice() {
        copies.push(name.copy(alloc)?)?;
    }
    Ok(List::from_vec(copies))
}

/// The built net and its proof, for a predicate that has one.
pub(crate) fn build(
    alloc: Global,
    choice: NetLeaves,
    pred: &Pred,
    names: &List<Text>,
) -> Result<(Net, Proof), NoMemory>
    requires formed { AreNames variable_name names.now }
    requires count { length names.now ≡ pred.now.variables }
    requires none { fault_in choice pred.now.tree ≡ None }
    ensures net { IfOk result (λ both. both.0 ≡ net_of choice names.now pred.now.tree) }
    ensures valid { IfOk result (λ both. ValidProof both.0 pred.now both.1) }
    ensures bound { IfOk result (λ both. proof_bound both.1 ≡ bound_in choice pred.now.tree) }
    ensures within { IfOk result (λ both. IsProofWithin pred.now.variables (length both.0.leaves) both.1) }
    ensures formed { IfOk result (λ both. IsNet both.0) }
    ensures preds { IfOk result (λ both. All (λ part. IsPred pred.now.variables part.pred.tree) both.1.leaves) }
    ensures single { IfOk result (λ both. IsSingle both.0) }
    ensures right { IfOk result (λ both. IsRight both.0 pred.now both.1) }
    ensures tame { IfOk result (λ both. AreTameEach both.0 both.1) }
{
    let mut built = Built {
        leaves: Vec::new(alloc),
        parts: Vec::new(alloc),
        items: Vec::new(alloc),
    };
    let tree = pred.tree();
    let helpers = count_helpers(choice, tree);
    built.push_tree(alloc, choice, helpers, tree)?;
    let names = copy_names(alloc, names)?;
    let Built {
        leaves,
        parts,
        items,
    } = built;
    let net = Net::of_valid(names, List::from_vec(leaves), List::from_vec(items));
    let proof = Proof {
        leaves: List::from_vec(parts),
    };
    Ok((net, proof))
}
