//! The value of a predicate's tree at counts.

ghost use Rattle.std.specs.Prelude.{◌≡◌, ◌≤◌, ◌<◌, ◌-ℤ◌, ◌*ℤ◌, pos, length, nat_abs};
ghost use Rattle.pres_ast.specs.PredModel.{AreCoefs, HasAtoms};
ghost use Rattle.pres_ast.specs.PredicateValue.{weighted_sum, is_multiple, predicate_value};
ghost use Rattle.pres_ast.specs.TreeOf.{tree_of};

use crate::limits::{COEFFICIENT_LIMIT, PRODUCT_LIMIT, VALUE_LIMIT};
use crate::tree::Tree;
use pop_io::VARIABLE_LIMIT;

/// The value of a tree whose atoms are over as many variables as there are counts.
pub(crate) fn value(tree: &Tree, counts: &[u64]) -> bool
    requires few { length counts.now ≤ VARIABLE_LIMIT }
    requires atoms { HasAtoms (length counts.now) (tree_of tree.now) }
    ensures { result ≡ predicate_value (tree_of tree.now) counts.now }
{
    match tree {
        Tree::Less { coefs, bound } => sum(coefs.as_slice(), counts) < i128::from(*bound),
        Tree::Rest {
            coefs,
            modulus,
            rest,
        } => is_congruent(coefs.as_slice(), counts, *modulus, *rest),
        Tree::Not(p) => !value(p, counts),
        Tree::And(p, q) => value(p, counts) && value(q, counts),
        Tree::Or(p, q) => value(p, counts) || value(q, counts),
    }
}

fn sum(coefs: &[i64], counts: &[u64]) -> i128
    requires few { length counts.now ≤ VARIABLE_LIMIT }
    requires coefs { AreCoefs (length counts.now) coefs.now }
    ensures value { result ≡ weighted_sum coefs.now counts.now }
    ensures size { nat_abs result ≤ VALUE_LIMIT }
{
    let mut total: i128 = 0;
    for (i, coef) in coefs.iter().enumerate() {
        total += product(*coef, counts[i]);
    }
    total
}

fn product(coef: i64, count: u64) -> i128
    requires { nat_abs coef ≤ COEFFICIENT_LIMIT }
    ensures value { result ≡ coef *ℤ pos count }
    ensures size { nat_abs result ≤ PRODUCT_LIMIT }
{
    i128::from(coef) * i128::from(count)
}

fn is_congruent(coefs: &[i64], counts: &[u64], modulus: u32, rest: u32) -> bool
    requires few { length counts.now ≤ VARIABLE_LIMIT }
    requires coefs { AreCoefs (length counts.now) coefs.now }
    requires modulus { 0 < modulus }
    ensures { result ≡ is_multiple modulus (weighted_sum coefs.now counts.now -ℤ pos rest) }
{
    (sum(coefs, counts) - i128::from(rest)).unsigned_abs() % u128::from(modulus) == 0
}
