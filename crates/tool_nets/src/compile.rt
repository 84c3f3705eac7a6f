//! The commands `compile`, `compile --flocks` and `compile --succinct`.

ghost use Rattle.std.specs.Prelude.{◌≡◌, length, Ok, IfOk};
ghost use Rattle.base_lines.specs.Lines.{lines_of};
ghost use Rattle.pop_words.specs.Vars.{AreVariables};
ghost use Rattle.tool_texts.specs.Steps.{GivesStep, Obeys};
ghost use Rattle.tool_nets.specs.Compile.{asked_by, fits_its_leaves, refusal_of, compiled_output};
ghost use Rattle.tool_nets.specs.Compile.{IsCompiled, OfAsked, CompileGives};

use cert_json::Bundle;
use cert_text::write_bundle;
use comp_net::{CompileFault, LeafChoice, compile_with};
use pop_io::{Failure, List, Text};
use pres_ast::Pred;
use std::alloc::Global;
use tool_bundles::{names_of, pred_of};
use tool_texts::{Ending, Output, Refusal, Stop, just_two_lines};

/// The names and the predicate that an input gives.
#[tactic(auto, unfolding(crate::specs::Compile::asked_by))]
fn asked(alloc: Global, input: &[u8]) -> Result<(List<Text>, Pred), Stop>
    ensures asked { GivesStep (λ asked. asked) result (asked_by (lines_of input.now)) }
    ensures formed { IfOk result (λ asked. AreVariables asked.0) }
    ensures count { IfOk result (λ asked. asked.1.variables ≡ length asked.0) }
{
    let (vars, pred) = just_two_lines(input)?;
    let names = names_of(alloc, vars)?;
    let pred = pred_of(alloc, pred, &names)?;
    Ok((names, pred))
}

/// How a predicate without a built net is refused.
fn refusal_of(fault: CompileFault) -> Refusal
    ensures { result ≡ refusal_of fault }
{
    match fault {
        CompileFault::ManyAtoms(atoms) => Refusal::Atoms(atoms),
        CompileFault::NoRange(atom) => Refusal::Range(atom),
        CompileFault::TooWide { atom, s } => Refusal::Width(atom, s),
        CompileFault::ManyStates { atom, states } => Refusal::States(atom, states),
        CompileFault::WideNet(atom) => Refusal::Wide(atom),
    }
}

/// The bundle of a predicate over these names: its built net, and a proof that the net computes it.
fn built_bundle(
    alloc: Global,
    choice: LeafChoice,
    pred: Pred,
    names: &List<Text>,
) -> Result<Bundle, Stop>
    requires formed { AreVariables names.now }
    requires count { pred.variables ≡ length names.now }
    ensures fits { GivesStep (λ _. tt) result (fits_its_leaves choice pred.tree) }
    ensures compiled { IfOk result (IsCompiled choice names.now pred) }
{
    let _limits = pred.vars();
    match compile_with(alloc, choice, &pred, names) {
        Ok((net, proof)) => Ok(Bundle { net, pred, proof }),
        Err(Failure::Fault(fault)) => Err(Failure::Fault(refusal_of(fault))),
        Err(Failure::NoMemory) => Err(Failure::NoMemory),
    }
}

/// The output for a bundle that was built: its line.
fn output_of(
    alloc: Global,
    choice: LeafChoice,
    names: &List<Text>,
    bundle: &Bundle,
) -> Result<Output, Stop>
    requires count { bundle.now.pred.variables ≡ length names.now }
    requires compiled { IsCompiled choice names.now bundle.now.pred bundle.now }
    ensures { GivesStep (λ output. output) result (Ok (compiled_output bundle.now)) }
{
    let mut line = Vec::new(alloc);
    write_bundle(alloc, &mut line, bundle)?;
    line.push(b'\n')?;
    Ok(Output::new(line, Ending::Done))
}

/// The output for a predicate over these names.
fn compile_asked(
    alloc: Global,
    choice: LeafChoice,
    names: &List<Text>,
    pred: Pred,
) -> Result<Output, Stop>
    requires formed { AreVariables names.now }
    requires count { pred.variables ≡ length names.now }
    ensures { Obeys (OfAsked choice (names.now, pred)) (λ output. output) result }
{
    let bundle = built_bundle(alloc, choice, pred, names)?;
    output_of(alloc, choice, names, &bundle)
}

/// What `compile` gives for an input, with these leaves.
pub fn compile_input(alloc: Global, choice: LeafChoice, input: &[u8]) -> Result<Output, Stop>
    ensures { Obeys (CompileGives choice (lines_of input.now)) (λ output. output) result }
{
    let (names, pred) = asked(alloc, input)?;
    compile_asked(alloc, choice, &names, pred)
}
