//! What it means that a predicate has a value.

ghost use Rattle.std.specs.Prelude.{◌≡◌, ◌≤◌, ◌∷◌, [], nat_abs, length, IfOk};
ghost use Rattle.pres_ast.specs.PredModel.{AreCoefs, IsPred};
ghost use Rattle.pres_ast.specs.PredTree.{LessThan, Congruent};
ghost use Rattle.pres_ast.specs.TreeOf.{tree_of};
ghost use Rattle.cert_base.specs.declared.fact.Fact.TheVariants.{Holds};
ghost use Rattle.cert_base.specs.FactsAndCases.{open_tree, cases_of_open, connective_cases, over_count};
ghost use Rattle.cert_base.specs.Ends.{CoverValue, AreCasesBy};

use crate::fact::{Fact, Row, only};
use pop_io::{List, NoMemory, VARIABLE_LIMIT};
use pres_ast::{BOUND_LIMIT, Pred, Tree, turned};
use std::alloc::Global;

/// One case with a linear fact for an atom; else the values of the parts, in one case or in two.
pub fn open_cases(alloc: Global, pred: &Pred, value: bool) -> Result<List<List<Fact>>, NoMemory>
    // Counts at which the predicate has the value meet all facts of one of the cases.
    ensures { IfOk result (AreCasesBy (CoverValue pred.now value) (cases_of_open pred.now value)) }
{
    tree_cases(alloc, pred.vars(), pred.tree(), value)
}

fn tree_cases(
    alloc: Global,
    vars: u16,
    tree: &Tree,
    value: bool,
) -> Result<List<List<Fact>>, NoMemory>
    requires { IsPred vars (tree_of tree.now) }
    ensures { IfOk result (λ cases. cases ≡ open_tree vars (tree_of tree.now) value) }
{
    match tree {
        Tree::Less { coefs, bound } => {
            one_case(alloc, less(alloc, coefs.as_slice(), *bound, value)?)
        }
        Tree::Rest {
            coefs,
            modulus,
            rest,
        } => {
            one_case(
                alloc,
                congruent(alloc, coefs.as_slice(), *modulus, *rest, value)?,
            )
        }
        Tree::Not(p) => one_case(alloc, holds(alloc, vars, p, !value)?),
        Tree::And(p, q) => connective_cases(alloc, vars, p, q, value, value),
        Tree::Or(p, q) => connective_cases(alloc, vars, p, q, value, !value),
    }
}

fn holds(alloc: Global, vars: u16, tree: &Tree, value: bool) -> Result<Fact, NoMemory>
    requires { IsPred vars (tree_of tree.now) }
    ensures { IfOk result (λ fact. fact ≡ Holds (over_count vars (tree_of tree.now)) value) }
{
    let tree = tree.copy(alloc)?;
    Ok(Fact::Holds(Pred::new(vars, tree), value))
}

fn less(alloc: Global, coefs: &[i64], bound: i64, value: bool) -> Result<Fact, NoMemory>
    requires coefs { AreCoefs (length coefs.now) coefs.now }
    requires few { length coefs.now ≤ VARIABLE_LIMIT }
    requires bound { nat_abs bound ≤ BOUND_LIMIT }
    ensures { IfOk result (λ fact. (fact ∷ []) ∷ [] ≡ open_tree (length coefs.now) (LessThan coefs.now bound) value) }
{
    if value {
        let turned = turned(alloc, coefs)?;
        Ok(Fact::Ge(Row::over_inputs(alloc, turned.as_slice(), bound - 1)?))
    } else {
        Ok(Fact::Ge(Row::over_inputs(alloc, coefs, -bound)?))
    }
}

fn congruent(
    alloc: Global,
    coefs: &[i64],
    modulus: u32,
    rest: u32,
    value: bool,
) -> Result<Fact, NoMemory>
    requires few { length coefs.now ≤ VARIABLE_LIMIT }
    ensures { IfOk result
        (λ fact. (fact ∷ []) ∷ [] ≡ open_tree (length coefs.now) (Congruent coefs.now modulus rest) value) }
{
    let row = Row::over_inputs(alloc, coefs, -i64::from(rest))?;
    Ok(if value {
        Fact::Cong(row, modulus)
    } else {
        Fact::NotCong(row, modulus)
    })
}

/// One case where both trees have the value, or one case for each.
fn connective_cases(
    alloc: Global,
    vars: u16,
    p: &Tree,
    q: &Tree,
    value: bool,
    both: bool,
) -> Result<List<List<Fact>>, NoMemory>
    requires first { IsPred vars (tree_of p.now) }
    requires second { IsPred vars (tree_of q.now) }
    ensures { IfOk result (λ cases. cases ≡ connective_cases both
        (Holds (over_count vars (tree_of p.now)) value) (Holds (over_count vars (tree_of q.now)) value)) }
{
    let mut cases = Vec::new(alloc);
    if both {
        cases.push(both_hold(alloc, vars, p, q, value)?)?;
    } else {
        cases.push(only_holds(alloc, vars, p, value)?)?;
        cases.push(only_holds(alloc, vars, q, value)?)?;
    }
    Ok(List::from_vec(cases))
}

/// The facts that both trees have the value.
fn both_hold(
    alloc: Global,
    vars: u16,
    p: &Tree,
    q: &Tree,
    value: bool,
) -> Result<List<Fact>, NoMemory>
    requires first { IsPred vars (tree_of p.now) }
    requires second { IsPred vars (tree_of q.now) }
    ensures { IfOk result (λ facts. facts ≡ Holds (over_count vars (tree_of p.now)) value
        ∷ Holds (over_count vars (tree_of q.now)) value ∷ []) }
{
    let mut facts = Vec::new(alloc);
    facts.push(holds(alloc, vars, p, value)?)?;
    facts.push(holds(alloc, vars, q, value)?)?;
    Ok(List::from_vec(facts))
}

/// The one fact that the tree has the value.
fn only_holds(alloc: Global, vars: u16, tree: &Tree, value: bool) -> Result<List<Fact>, NoMemory>
    requires { IsPred vars (tree_of tree.now) }
    ensures { IfOk result (λ facts. facts ≡ Holds (over_count vars (tree_of tree.now)) value ∷ []) }
{
    only(alloc, holds(alloc, vars, tree, value)?)
}

fn one_case(alloc: Global, fact: Fact) -> Result<List<List<Fact>>, NoMemory>
    ensures { IfOk result (λ cases. cases ≡ (fact ∷ []) ∷ []) }
{
    let mut cases = Vec::new(alloc);
    cases.push(only(alloc, fact)?)?;
    Ok(List::from_vec(cases))
}
