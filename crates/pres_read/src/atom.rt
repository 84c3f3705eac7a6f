//! The trees of atoms.

ghost use Rattle.std.specs.Prelude.{◌≡◌, ◌≤◌, ◌-◌, All, nat_abs, map, neg_ℤ, pos, ◌+ℤ◌, IfOk};
ghost use Rattle.pres_ast.specs.PredTree.{LessThan};
ghost use Rattle.pres_ast.specs.TreeOf.{tree_of};
ghost use Rattle.pres_read.specs.Atoms.{negation_if, equality_tree, compared_tree, congruent_tree, limit_of};

use pop_io::{List, NoMemory};
use pres_ast::{BOUND_LIMIT, COEFFICIENT_LIMIT, MODULUS_LIMIT, Tree, turned};
use pres_tokens::Relation;
use std::alloc::Global;

/// The greatest constant after a relation.
pub(crate) fn constant_limit(relation: Relation) -> u64
    ensures { result ≡ limit_of relation }
{
    match relation {
        Relation::Less => BOUND_LIMIT,
        _ => BOUND_LIMIT - 1,
    }
}

fn less(coefs: Vec<i64>, bound: i64) -> Tree
    ensures { tree_of result ≡ LessThan coefs.items bound }
{
    Tree::Less {
        coefs: List::from_vec(coefs),
        bound,
    }
}

fn at_most(coefs: Vec<i64>, constant: i64) -> Tree
    requires { nat_abs constant ≤ BOUND_LIMIT - 1 }
    ensures { tree_of result ≡ LessThan coefs.items (constant +ℤ pos 1) }
{
    less(coefs, constant + 1)
}

/// The sum's opposite is below the bound.
fn opposite_less(alloc: Global, coefs: Vec<i64>, bound: i64) -> Result<Tree, NoMemory>
    requires { All (λ a. nat_abs a ≤ COEFFICIENT_LIMIT) coefs.items }
    ensures { IfOk result (λ tree. tree_of tree ≡ LessThan (map neg_ℤ coefs.items) bound) }
{
    Ok(less(turned(alloc, coefs.as_slice())?, bound))
}

fn negated_if(alloc: Global, negative: bool, tree: Tree) -> Result<Tree, NoMemory>
    ensures { IfOk result (λ negated. tree_of negated ≡ negation_if negative (tree_of tree)) }
{
    if negative {
        Ok(Tree::Not(Box::new(alloc, tree)?))
    } else {
        Ok(tree)
    }
}

fn equality(alloc: Global, coefs: Vec<i64>, constant: i64) -> Result<Tree, NoMemory>
    requires coefs { All (λ a. nat_abs a ≤ COEFFICIENT_LIMIT) coefs.items }
    requires constant { nat_abs constant ≤ BOUND_LIMIT - 1 }
    ensures { IfOk result (λ tree. tree_of tree ≡ equality_tree coefs.items constant) }
{
    let opposite = turned(alloc, coefs.as_slice())?;
    let below = Box::new(alloc, at_most(coefs, constant))?;
    let above = Box::new(alloc, less(opposite, 1 - constant))?;
    Ok(Tree::And(below, above))
}

/// The sum equals the constant, or doesn't.
pub(crate) fn equal(
    alloc: Global,
    coefs: Vec<i64>,
    unequal: bool,
    constant: i64,
) -> Result<Tree, NoMemory>
    requires coefs { All (λ a. nat_abs a ≤ COEFFICIENT_LIMIT) coefs.items }
    requires constant { nat_abs constant ≤ BOUND_LIMIT - 1 }
    ensures { IfOk result (λ tree. tree_of tree ≡ negation_if unequal (equality_tree coefs.items constant)) }
{
    negated_if(alloc, unequal, equality(alloc, coefs, constant)?)
}

/// The sum has this relation to the constant.
pub(crate) fn compared(
    alloc: Global,
    coefs: Vec<i64>,
    relation: Relation,
    constant: i64,
) -> Result<Tree, NoMemory>
    requires coefs { All (λ a. nat_abs a ≤ COEFFICIENT_LIMIT) coefs.items }
    requires constant { nat_abs constant ≤ limit_of relation }
    ensures { IfOk result (λ tree. tree_of tree ≡ compared_tree coefs.items relation constant) }
{
    match relation {
        Relation::Less => Ok(less(coefs, constant)),
        Relation::AtMost => Ok(at_most(coefs, constant)),
        Relation::Greater => opposite_less(alloc, coefs, -constant),
        Relation::AtLeast => opposite_less(alloc, coefs, 1 - constant),
        Relation::Equal => equal(alloc, coefs, false, constant),
        Relation::Unequal => equal(alloc, coefs, true, constant),
    }
}

/// The sum equals the constant, or doesn't, modulo `modulus`.
pub(crate) fn congruent(
    alloc: Global,
    coefs: Vec<i64>,
    unequal: bool,
    constant: i64,
    modulus: u32,
) -> Result<Tree, NoMemory>
    requires positive { 2 ≤ modulus }
    requires small { modulus ≤ MODULUS_LIMIT }
    ensures { IfOk result (λ tree. tree_of tree ≡ congruent_tree coefs.items unequal constant modulus) }
{
    let rest = constant.rem_euclid(i64::from(modulus)) as u32;
    let coefs = List::from_vec(coefs);
    negated_if(
        alloc,
        unequal,
        Tree::Rest {
            coefs,
            modulus,
            rest,
        },
    )
}
