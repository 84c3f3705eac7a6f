//! The names of a vars line, and a predicate and counts over them.

ghost use Rattle.std.specs.Prelude.{◌≡◌, length, IfOk};
ghost use Rattle.pop_words.specs.Vars.{vars_of, AreVariables};
ghost use Rattle.pop_words.specs.Counts.{counts_of};
ghost use Rattle.pres_read.specs.Reading.{pred_read};
ghost use Rattle.tool_texts.specs.Steps.{GivesStep};
ghost use Rattle.tool_bundles.specs.Named.{named, understood, counted};

use cert_json::pred_why;
use pop_io::{Failure, List, Text};
use pop_words::{BadWord, NoVars, read_counts, read_vars};
use pres_ast::Pred;
use pres_read::read_pred;
use std::alloc::Global;
use tool_texts::{LineWhy, Refusal, Stop};

/// The names of a vars line.
pub fn names_of(alloc: Global, line: &[u8]) -> Result<List<Text>, Stop>
    ensures names { GivesStep (λ names. names) result (named (vars_of line.now)) }
    ensures formed { IfOk result AreVariables }
{
    match read_vars(alloc, line) {
        Ok(names) => Ok(names),
        Err(Failure::Fault(NoVars)) => Err(Failure::Fault(Refusal::Line(1, LineWhy::Form))),
        Err(Failure::NoMemory) => Err(Failure::NoMemory),
    }
}

/// The predicate of a line, over these names.
pub fn pred_of(alloc: Global, line: &[u8], names: &List<Text>) -> Result<Pred, Stop>
    requires { AreVariables names.now }
    ensures pred { GivesStep (λ pred. pred) result (understood (pred_read names.now line.now)) }
    ensures variables { IfOk result (λ pred. pred.variables ≡ length names.now) }
{
    match read_pred(alloc, line, names) {
        Ok(pred) => Ok(pred),
        Err(Failure::Fault(fault)) => Err(Failure::Fault(Refusal::Pred(pred_why(fault)))),
        Err(Failure::NoMemory) => Err(Failure::NoMemory),
    }
}

/// The counts of a crowd line, one per variable.
pub fn counts_in(alloc: Global, line: &[u8], names: &List<Text>) -> Result<List<u64>, Stop>
    requires { AreVariables names.now }
    ensures counts { GivesStep (λ counts. counts) result (counted (counts_of names.now line.now)) }
    ensures len { IfOk result (λ counts. length counts ≡ length names.now) }
{
    match read_counts(alloc, line, names) {
        Ok(counts) => Ok(counts),
        Err(Failure::Fault(BadWord(word))) => Err(Failure::Fault(Refusal::Count(word))),
        Err(Failure::NoMemory) => Err(Failure::NoMemory),
    }
}
