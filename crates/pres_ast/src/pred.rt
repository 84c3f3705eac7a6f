//! A predicate within the limits.

ghost use Rattle.std.specs.Prelude.{◌≡◌, ◌↔◌, IsTrue};

use crate::tree::Tree;
use crate::value::value;
use pop_io::NoMemory;
use std::alloc::Global;
use std::marker::Model;

/// A tree over 1 to `VARIABLE_LIMIT` variables within the other limits of this crate.
#[derive(Drop)]
pub struct Pred {
    vars: u16,
    tree: Tree,
}

impl Model for Pred {
    ghost use Rattle.pres_ast.specs.PredModel.{PredModel, IsPred};
    ghost use Rattle.pres_ast.specs.PredCode.{pred_code};
    ghost use Rattle.pres_ast.specs.TreeOf.{tree_of};

    ghost Value = { PredModel };

    ghost coded = { pred_code };

    ghost view = { λ p. record { variables = p.vars; tree = tree_of p.tree } };

    ghost invariant = { λ p. IsPred p.vars (tree_of p.tree) };
}

impl Pred {
    ghost use Rattle.std.specs.Prelude.{◌≡◌, IfOk, length};
    ghost use Rattle.pres_ast.specs.PredModel.{IsPred};
    ghost use Rattle.pres_ast.specs.PredicateValue.{predicate_value};
    ghost use Rattle.pres_ast.specs.TreeOf.{tree_of};

    /// The predicate of this tree over `vars` variables. Allocates nothing.
    pub fn new(vars: u16, tree: Tree) -> Pred
        requires { IsPred vars (tree_of tree) }
        ensures { result ≡ record { variables = vars; tree = tree_of tree } }
    {
        Pred { vars, tree }
    }

    /// The number of variables. Allocates nothing.
    pub fn vars(&self) -> u16
        ensures value { result ≡ self.now.variables }
        ensures limits { IsPred self.now.variables self.now.tree }
    {
        self.vars
    }

    /// The tree. Allocates nothing.
    pub fn tree(&self) -> &Tree
        ensures value { tree_of result.now ≡ self.now.tree }
        ensures limits { IsPred self.now.variables self.now.tree }
    {
        &self.tree
    }

    /// An equal predicate.
    pub fn copy(&self, alloc: Global) -> Result<Pred, NoMemory>
        ensures { IfOk result (λ pred. pred ≡ self.now) }
    {
        let tree = self.tree.copy(alloc)?;
        Ok(Pred::new(self.vars, tree))
    }

    /// The value when variable i has the count `counts[i]`. Allocates nothing.
    pub fn eval(&self, counts: &[u64]) -> bool
        requires { length counts.now ≡ self.now.variables }
        ensures { result ≡ predicate_value self.now.tree counts.now }
    {
        value(&self.tree, counts)
    }
}

/// Whether two predicates have the same number of variables and the same tree. Allocates nothing.
pub fn same(a: &Pred, b: &Pred) -> bool
    ensures { IsTrue result ↔ (a.now ≡ b.now) }
{
    a.vars == b.vars && a.tree.same(&b.tree)
}
