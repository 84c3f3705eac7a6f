//! Reading a predicate.

ghost use Rattle.std.specs.Prelude.{◌≡◌, ◌≤◌, IfOk, IfErr, length};
ghost use Rattle.pop_io.specs.Failures.{fault_of};
ghost use Rattle.pop_io.specs.Gives.{Fails};
ghost use Rattle.pres_ast.specs.PredModel.{IsPred};
ghost use Rattle.pres_ast.specs.TreeOf.{tree_of};
ghost use Rattle.pres_tokens.specs.Tokens.{tokens_of};
ghost use Rattle.pres_tokens.specs.Symbols.{token_of};
ghost use Rattle.pres_read.specs.Calls.{AreVariableNames, IsReadFrom};
ghost use Rattle.pres_read.specs.Outcome.{GivesParsed};
ghost use Rattle.pres_read.specs.Progress.{start};
ghost use Rattle.pres_read.specs.Depth.{surface};
ghost use Rattle.pres_read.specs.Reading.{run, finish, read_on, pred_read};
ghost use Rattle.pres_read.specs.Sound.{IsSoundProgress};
ghost use Rattle.pres_read.specs.Views.{progress_of, depth_of};

use crate::depth::{Depth, PARENTHESIS_LIMIT};
use crate::fault::ReadPred;
use crate::place::Parser;
use pop_io::{Failure, List, Text, VARIABLE_LIMIT};
use pres_ast::{Pred, Tree, WEIGHT_LIMIT};
use pres_tokens::{Token, next_token};
use std::alloc::Global;

/// The greatest number of bytes of a text that is read.
pub const TEXT_LIMIT: usize = 1_048_576;

/// Reads a predicate over the variables with these names.
pub fn read_pred(alloc: Global, text: &[u8], names: &List<Text>) -> Result<Pred, Failure<ReadPred>>
    requires { AreVariableNames names.now }
    ensures { IsReadFrom text.now names.now result }
{
    read_exactly(alloc, text, names)
}

fn read_exactly(alloc: Global, text: &[u8], names: &List<Text>) -> Result<Pred, Failure<ReadPred>>
    requires some { 1 ≤ length names.now }
    requires few { length names.now ≤ VARIABLE_LIMIT }
    ensures { GivesParsed (λ pred. pred) result (pred_read names.now text.now) }
{
    if text.len() > TEXT_LIMIT {
        return Err(Failure::Fault(ReadPred::LongText(text.len() as u64)));
    }
    let tree = read_tree(alloc, text, names)?;
    Ok(Pred::new(names.as_slice().len() as u16, tree))
}

fn read_tree<'a>(
    alloc: Global,
    text: &'a [u8],
    names: &List<Text>,
) -> Result<Tree, Failure<ReadPred>>
    requires short { length text.now ≤ TEXT_LIMIT }
    requires some { 1 ≤ length names.now }
    requires few { length names.now ≤ VARIABLE_LIMIT }
    ensures exact { GivesParsed tree_of result (run names.now (length text.now) start surface (tokens_of text.now)) }
    ensures limits { IfOk result (λ tree. IsPred (length names.now) (tree_of tree)) }
{
    let mut reader = Reader {
        parser: Parser::new(alloc),
        depth: Depth::new(),
    };
    reader.read_tokens(alloc, text, names)?;
    reader.parser.finish(alloc, names, text.len() as u32)
}

#[derive(Drop)]
struct Reader<'a> {
    parser: Parser<'a>,
    depth: Depth,
}

impl<'a> Reader<'a> {
    /// Reads the tokens of a text.
    fn read_tokens(
        &mut self,
        alloc: Global,
        text: &'a [u8],
        names: &List<Text>,
    ) -> Result<(), Failure<ReadPred>>
        requires short { length text.now ≤ TEXT_LIMIT }
        requires sound { IsSoundProgress (length names.now) (progress_of self.old.parser) self.old.depth.charge }
        requires charge { self.old.depth.charge ≤ WEIGHT_LIMIT }
        requires parentheses { self.old.depth.parentheses ≤ PARENTHESIS_LIMIT }
        ensures sound { IfOk result
            (λ _. IsSoundProgress (length names.now) (progress_of self.new.parser) self.new.depth.charge) }
        ensures charge { IfOk result (λ _. self.new.depth.charge ≤ WEIGHT_LIMIT) }
        ensures goes { IfOk result
            (λ _. run names.now (length text.now) (progress_of self.old.parser) (depth_of self.old.depth)
            (tokens_of text.now) ≡ finish (progress_of self.new.parser) (length text.now)) }
        ensures fails { IfErr result
            (λ e. Fails fault_of e
            (run names.now (length text.now) (progress_of self.old.parser) (depth_of self.old.depth)
            (tokens_of text.now))) }
    {
        let mut at = 0;
        while let Some((token, end)) = next_token(text, at) {
            self.read_token(alloc, names, token)?;
            at = end;
        }
        Ok(())
    }

    fn read_token(
        &mut self,
        alloc: Global,
        names: &List<Text>,
        token: Token<'a>,
    ) -> Result<(), Failure<ReadPred>>
        requires sound { IsSoundProgress (length names.now) (progress_of self.old.parser) self.old.depth.charge }
        requires charge { self.old.depth.charge ≤ WEIGHT_LIMIT }
        requires parentheses { self.old.depth.parentheses ≤ PARENTHESIS_LIMIT }
        ensures sound { IfOk result
            (λ _. IsSoundProgress (length names.now) (progress_of self.new.parser) self.new.depth.charge) }
        ensures charge { IfOk result (λ _. self.new.depth.charge ≤ WEIGHT_LIMIT) }
        ensures parentheses { IfOk result (λ _. self.new.depth.parentheses ≤ PARENTHESIS_LIMIT) }
        ensures exact { GivesParsed (λ _. (progress_of self.new.parser, depth_of self.new.depth)) result
            (read_on names.now (progress_of self.old.parser) (depth_of self.old.depth) (token_of token.entry)) }
    {
        self.parser.read_token(alloc, names, token)?;
        self.depth = self.depth.after(token)?;
        Ok(())
    }
}
