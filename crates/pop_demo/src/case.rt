//! The predicate of a case over x and y, and how many agents stand for each.

ghost use Rattle.std.specs.Prelude.{◌≡◌, ◌∷◌, [], IfOk};
ghost use Rattle.pres_ast.specs.PredTree.{Negation, Conjunction, Disjunction};
ghost use Rattle.pres_ast.specs.TreeOf.{tree_of};
ghost use Rattle.pop_demo.specs.DemoCase.{names_of_demo, demo_threshold, demo_remainder, demo_tree, demo_pred};
ghost use Rattle.pop_demo.specs.DemoCase.{demo_counts};

use pop_io::{List, NoMemory, Text};
use pres_ast::{Pred, Tree};
use std::alloc::Global;

/// How many cases in a row share their numbers and differ in the form of their predicate.
const FORMS: u32 = 4;

/// The predicate and the counts of the case with this number.
pub fn demo_case(alloc: Global, number: u32) -> Result<(Pred, List<u64>), NoMemory>
    ensures pred { IfOk result (λ case. case.0 ≡ demo_pred number) }
    ensures counts { IfOk result (λ case. case.1 ≡ demo_counts number) }
{
    let tree = tree(alloc, number)?;
    let counts = counts(alloc, number)?;
    Ok((Pred::new(2, tree), counts))
}

/// The names of the variables: `x` and `y`.
pub fn demo_names(alloc: Global) -> Result<List<Text>, NoMemory>
    ensures { IfOk result (λ list. list ≡ names_of_demo) }
{
    let x = Text::from_string(String::from_str(alloc, "x")?);
    let y = Text::from_string(String::from_str(alloc, "y")?);
    let mut names = Vec::new(alloc);
    names.push(x)?;
    names.push(y)?;
    Ok(List::from_vec(names))
}

fn tree(alloc: Global, number: u32) -> Result<Tree, NoMemory>
    ensures { IfOk result (λ tree. tree_of tree ≡ demo_tree number) }
{
    let index = number / FORMS;
    match number % FORMS {
        0 => less(alloc, index),
        1 => congruent(alloc, index),
        2 => both(alloc, index),
        _ => either(alloc, index),
    }
}

fn less(alloc: Global, index: u32) -> Result<Tree, NoMemory>
    ensures { IfOk result (λ tree. tree_of tree ≡ demo_threshold index) }
{
    let coefs = coefs(alloc, 1, -1)?;
    let bound = i64::from(index % 41) - 20;
    Ok(Tree::Less { coefs, bound })
}

fn congruent(alloc: Global, index: u32) -> Result<Tree, NoMemory>
    ensures { IfOk result (λ tree. tree_of tree ≡ demo_remainder index) }
{
    let coefs = coefs(alloc, 1, 2)?;
    let modulus = 2 + index % 19;
    let rest = index % modulus;
    Ok(Tree::Rest {
        coefs,
        modulus,
        rest,
    })
}

fn both(alloc: Global, index: u32) -> Result<Tree, NoMemory>
    ensures { IfOk result (λ tree. tree_of tree ≡ Conjunction (demo_threshold index) (demo_remainder index)) }
{
    let left = Box::new(alloc, less(alloc, index)?)?;
    let right = Box::new(alloc, congruent(alloc, index)?)?;
    Ok(Tree::And(left, right))
}

fn either(alloc: Global, index: u32) -> Result<Tree, NoMemory>
    ensures { IfOk result (λ tree.
        tree_of tree ≡ Disjunction (Negation (demo_threshold index)) (demo_remainder index)) }
{
    let inner = Box::new(alloc, less(alloc, index)?)?;
    let left = Box::new(alloc, Tree::Not(inner))?;
    let right = Box::new(alloc, congruent(alloc, index)?)?;
    Ok(Tree::Or(left, right))
}

fn coefs(alloc: Global, x: i64, y: i64) -> Result<List<i64>, NoMemory>
    ensures { IfOk result (λ coefs. coefs ≡ x ∷ y ∷ []) }
{
    let coefs = Vec::from_slice(alloc, &[x, y])?;
    Ok(List::from_vec(coefs))
}

fn counts(alloc: Global, number: u32) -> Result<List<u64>, NoMemory>
    ensures { IfOk result (λ counts. counts ≡ demo_counts number) }
{
    let index = number / FORMS;
    let x = 100 + u64::from(index % 400);
    let counts = Vec::from_slice(alloc, &[x, 250])?;
    Ok(List::from_vec(counts))
}
