//! A predicate's tree.

ghost use Rattle.std.specs.Prelude.{◌≡◌, ◌↔◌, IsTrue};

use pop_io::{List, NoMemory};
use std::alloc::Global;

/// A quantifier-free formula of Presburger arithmetic over counts `x(i)`.
#[derive(Drop)]
pub enum Tree {
    /// The sum of `coefs(i) * x(i)` is below `bound`.
    Less {
        coefs: List<i64>,
        bound: i64,
    },
    /// The same sum is congruent to `rest` modulo `modulus`.
    Rest {
        coefs: List<i64>,
        modulus: u32,
        rest: u32,
    },
    /// The formula is false.
    Not(Box<Tree>),
    /// Both are true.
    And(Box<Tree>, Box<Tree>),
    /// At least one of the two is true.
    Or(Box<Tree>, Box<Tree>),
}

impl Tree {
    ghost use Rattle.std.specs.Prelude.{◌≡◌, ◌↔◌, IfOk, IsTrue};
    ghost use Rattle.pres_ast.specs.TreeOf.{tree_of};

    /// The same formula.
    pub fn copy(&self, alloc: Global) -> Result<Tree, NoMemory>
        ensures { IfOk result (λ tree. tree_of tree ≡ tree_of self.now) }
    {
        Ok(match self {
            Tree::Less { coefs, bound } => Tree::Less {
                coefs: coefs.copy(alloc)?,
                bound: *bound,
            },
            Tree::Rest {
                coefs,
                modulus,
                rest,
            } => Tree::Rest {
                coefs: coefs.copy(alloc)?,
                modulus: *modulus,
                rest: *rest,
            },
            Tree::Not(p) => Tree::Not(Box::new(alloc, p.copy(alloc)?)?),
            Tree::And(p, q) => {
                Tree::And(
                    Box::new(alloc, p.copy(alloc)?)?,
                    Box::new(alloc, q.copy(alloc)?)?,
                )
            }
            Tree::Or(p, q) => {
                Tree::Or(
                    Box::new(alloc, p.copy(alloc)?)?,
                    Box::new(alloc, q.copy(alloc)?)?,
                )
            }
        })
    }

    /// Whether both trees are the same formula, node by node. Allocates nothing.
    pub fn same(&self, other: &Tree) -> bool
        ensures { IsTrue result ↔ (tree_of self.now ≡ tree_of other.now) }
    {
        match (self, other) {
            (Tree::Less { coefs: a, bound: c }, Tree::Less { coefs: b, bound: d }) => {
                same_items(a, b) && *c == *d
            }
            (
                Tree::Rest {
                    coefs: a,
                    modulus: m,
                    rest: r,
                },
                Tree::Rest {
                    coefs: b,
                    modulus: n,
                    rest: s,
                },
            ) => same_items(a, b) && *m == *n && *r == *s,
            (Tree::Not(p), Tree::Not(q)) => p.same(q),
            (Tree::And(p, q), Tree::And(r, s)) => p.same(r) && q.same(s),
            (Tree::Or(p, q), Tree::Or(r, s)) => p.same(r) && q.same(s),
            _ => false,
        }
    }
}

fn same_items(a: &List<i64>, b: &List<i64>) -> bool
    ensures { IsTrue result ↔ (a.now ≡ b.now) }
{
    a.as_slice() == b.as_slice()
}
