//! The command `eval`.

ghost use Rattle.std.specs.Prelude.{◌≡◌, IfOk};
ghost use Rattle.base_lines.specs.Lines.{lines_of};
ghost use Rattle.pop_words.specs.Vars.{AreVariables};
ghost use Rattle.tool_texts.specs.Steps.{GivesStep};
ghost use Rattle.tool_nets.specs.Eval.{truth_line, truth_in, eval_output};

use pop_io::{List, Text};
use std::alloc::{AllocError, Global};
use tool_bundles::{counts_in, names_of, pred_of};
use tool_texts::{Ending, Output, Stop, just_three_lines};

fn truth_text(alloc: Global, truth: bool) -> Result<Vec<u8>, AllocError>
    ensures { IfOk result (λ text. text.items ≡ truth_line truth) }
{
    let line = if truth { "true\n" } else { "false\n" };
    Vec::from_slice(alloc, line.as_bytes())
}

/// The truth of a predicate line at a crowd line.
#[tactic(auto, unfolding(crate::specs::Eval::truth_in))]
fn truth_of(alloc: Global, names: &List<Text>, pred: &[u8], crowd: &[u8]) -> Result<bool, Stop>
    requires { AreVariables names.now }
    ensures { GivesStep (λ truth. truth) result (truth_in names.now pred.now crowd.now) }
{
    let pred = pred_of(alloc, pred, names)?;
    let counts = counts_in(alloc, crowd, names)?;
    Ok(pred.eval(counts.as_slice()))
}

/// What `eval` gives for an input.
#[tactic(auto, unfolding(crate::specs::Eval::eval_output))]
pub fn eval_input(alloc: Global, input: &[u8]) -> Result<Output, Stop>
    ensures { GivesStep (λ output. output) result (eval_output (lines_of input.now)) }
{
    let (vars, pred, crowd) = just_three_lines(input)?;
    let names = names_of(alloc, vars)?;
    let truth = truth_of(alloc, &names, pred, crowd)?;
    let text = truth_text(alloc, truth)?;
    Ok(Output::new(text, Ending::Done))
}
