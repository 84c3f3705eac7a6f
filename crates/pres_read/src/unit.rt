//! Units, and the signs before and after them.

ghost use Rattle.std.specs.Prelude.{◌≡◌, None, Some, Ok, IfOk, option_map};
ghost use Rattle.pres_ast.specs.PredTree.{PredTree};
ghost use Rattle.pres_ast.specs.TreeOf.{tree_of};
ghost use Rattle.pres_tokens.specs.Symbols.{symbol_of};
ghost use Rattle.pres_read.specs.Outcome.{GivesParsed};
ghost use Rattle.pres_read.specs.Reading.{negation, conjunction, disjunction, tree_up_to_unit, progress_after_unit};
ghost use Rattle.pres_read.specs.Reading.{progress_after_and, progress_after_or};
ghost use Rattle.pres_read.specs.Reading.{sign_step, end_step, close_step, going_on};
ghost use Rattle.pres_read.specs.Views.{span_of_level, spans_of, around_of, next_expected};

use crate::fault::ReadPred;
use crate::place::{Around, Expect, Level};
use pop_io::{Failure, NoMemory};
use pres_ast::Tree;
use pres_tokens::{Kind, Token};
use std::alloc::Global;
use std::mem;

fn negated(alloc: Global, tree: Tree, nots: u32) -> Result<Tree, NoMemory>
    ensures { IfOk result (λ whole. tree_of whole ≡ negation nots (tree_of tree)) }
{
    let mut whole = tree;
    for _ in 0..nots {
        whole = Tree::Not(Box::new(alloc, whole)?);
    }
    Ok(whole)
}

fn conjoined(alloc: Global, left: Option<Tree>, right: Tree) -> Result<Tree, NoMemory>
    ensures { IfOk result (λ whole. tree_of whole ≡ conjunction (option_map tree_of left) (tree_of right)) }
{
    match left {
        None => Ok(right),
        Some(left) => Ok(Tree::And(Box::new(alloc, left)?, Box::new(alloc, right)?)),
    }
}

fn disjoined(alloc: Global, left: Option<Tree>, right: Tree) -> Result<Tree, Failure<ReadPred>>
    ensures { GivesParsed tree_of result (Ok (disjunction (option_map tree_of left) (tree_of right))) }
{
    match left {
        None => Ok(right),
        Some(left) => Ok(Tree::Or(Box::new(alloc, left)?, Box::new(alloc, right)?)),
    }
}

/// The conjunction up to a unit, with its `!` and the `&&` before it applied.
pub(crate) fn up_to_unit(alloc: Global, level: &mut Level, tree: Tree) -> Result<Tree, NoMemory>
    ensures level { IfOk result (λ _. span_of_level level.new
        ≡ record { ors = option_map tree_of level.old.ors; ands = None; nots = 0 }) }
    ensures tree { IfOk result
        (λ whole. tree_of whole ≡ tree_up_to_unit (span_of_level level.old) (tree_of tree)) }
{
    let nots = mem::replace(&mut level.nots, 0);
    let tree = negated(alloc, tree, nots)?;
    conjoined(alloc, level.ands.take(), tree)
}

/// What comes after a unit.
pub(crate) fn after_unit<'a>(
    alloc: Global,
    around: &mut Around,
    tree: Tree,
) -> Result<Expect<'a>, Failure<ReadPred>>
    ensures { GivesParsed (λ e. going_on (around_of around.new) (next_expected e)) result
        (Ok (progress_after_unit (around_of around.old) (tree_of tree))) }
{
    let tree = up_to_unit(alloc, &mut around.level, tree)?;
    Ok(Expect::Sign { tree })
}

/// The token after a conjunction of units.
pub(crate) fn at_sign<'a>(
    alloc: Global,
    around: &mut Around,
    tree: Tree,
    token: Token<'a>,
) -> Result<Expect<'a>, Failure<ReadPred>>
    ensures { GivesParsed (λ e. going_on (around_of around.new) (next_expected e)) result
        (sign_step (spans_of around.old.above) (option_map tree_of around.old.level.ors) (tree_of tree)
        token.entry.place (symbol_of token.entry.kind)) }
{
    match token.kind {
        Kind::And => Ok(after_and(around, tree)),
        Kind::Or => after_or(alloc, around, tree),
        Kind::Close => after_close(alloc, around, tree, token.place),
        _ => Err(Failure::Fault(ReadPred::Syntax(token.place))),
    }
}

/// What comes after a `&&`.
fn after_and<'a>(around: &mut Around, tree: Tree) -> Expect<'a>
    ensures { going_on (around_of around.new) (next_expected result)
        ≡ progress_after_and (spans_of around.old.above) (option_map tree_of around.old.level.ors) (tree_of tree) }
{
    around.level.ands = Some(tree);
    around.level.nots = 0;
    Expect::Unit
}

/// What comes after a `||`.
fn after_or<'a>(
    alloc: Global,
    around: &mut Around,
    tree: Tree,
) -> Result<Expect<'a>, Failure<ReadPred>>
    ensures { GivesParsed (λ e. going_on (around_of around.new) (next_expected e)) result
        (Ok (progress_after_or (spans_of around.old.above) (option_map tree_of around.old.level.ors) (tree_of tree))) }
{
    let left = disjoined(alloc, around.level.ors.take(), tree)?;
    around.level = Level {
        ors: Some(left),
        ands: None,
        nots: 0,
    };
    Ok(Expect::Unit)
}

/// What comes after a `)`, which makes a unit of the disjunction before it.
fn after_close<'a>(
    alloc: Global,
    around: &mut Around,
    tree: Tree,
    place: u32,
) -> Result<Expect<'a>, Failure<ReadPred>>
    ensures { GivesParsed (λ e. going_on (around_of around.new) (next_expected e)) result
        (close_step (spans_of around.old.above) (disjunction (option_map tree_of around.old.level.ors) (tree_of tree))
        place) }
{
    let tree = disjoined(alloc, around.level.ors.take(), tree)?;
    leave(around, place)?;
    after_unit(alloc, around, tree)
}

/// Goes back to the level around the innermost open parenthesis.
fn leave(around: &mut Around, place: u32) -> Result<(), Failure<ReadPred>>
    ensures { (p : PredTree) → GivesParsed (λ _. progress_after_unit (around_of around.new) p) result
        (close_step (spans_of around.old.above) p place) }
{
    let Some(level) = around.above.pop() else {
        return Err(Failure::Fault(ReadPred::Syntax(place)));
    };
    around.level = level;
    Ok(())
}

/// The end of the text after a conjunction of units.
pub(crate) fn ended(
    alloc: Global,
    around: &mut Around,
    tree: Tree,
    end: u32,
) -> Result<Tree, Failure<ReadPred>>
    ensures { GivesParsed tree_of result
        (end_step (spans_of around.old.above) (option_map tree_of around.old.level.ors) (tree_of tree) end) }
{
    if !around.above.is_empty() {
        return Err(Failure::Fault(ReadPred::Syntax(end)));
    }
    disjoined(alloc, around.level.ors.take(), tree)
}
