//! The command `demo`.

ghost use Rattle.std.specs.Prelude.{◌≡◌, ◌++◌, ◌<◌, ◌≤◌, ◌^◌, count_by, decimal, length, None, IfOk, OnOk};
ghost use Rattle.base_lines.specs.Lines.{ended};
ghost use Rattle.pop_words.specs.declared.command.TheConstants.{DEMO_LIMIT};
ghost use Rattle.run_picks.specs.Run.{joined};
ghost use Rattle.run_text.specs.Journal.{text_of};
ghost use Rattle.pop_demo.specs.DemoCase.{names_of_demo};
ghost use Rattle.comp_net.specs.BuiltNet.{built_net};
ghost use Rattle.comp_net.specs.CompileFaults.{fault_with};
ghost use Rattle.comp_net.specs.declared.choice.LeafChoice.TheVariants.{Plain};
ghost use Rattle.tool_courses.specs.Prepared.{LeadsTo, NeedsNoThreads};
ghost use Rattle.tool_bundles.specs.Start.{IsStart};
ghost use Rattle.tool_courses.specs.DemoOutput.{changed, demo_start, summary_lines, IsCase, IsDemoOutput, CanDemo};
ghost use Rattle.tool_demos.specs.Demo.{DemoGives, IsBuiltNet, IsRunOfCase};

use base_lines::push_number;
use cert_base::Proof;
use comp_net::compile;
use pop_checker::{Checked, check};
use pop_crowd::{Crowd, CrowdFault, Meeting};
use pop_demo::{demo_case, demo_names, demo_run};
use pop_io::{Failure, Gate, List, NoMemory};
use pop_net::Net;
use pres_ast::Pred;
use pres_read::print_pred;
use run_picks::{RunEnd, run_alone};
use run_text::{Last, push_last_line};
use std::alloc::{AllocError, Global};
use tool_courses::{Case, PendingDemo, Prepared, last_and_ending};
use tool_texts::Output;

/// The net that is built of a predicate over the names of the demo, and its proof.
fn built(alloc: Global, pred: &Pred) -> Result<(Net, Proof), NoMemory>
    requires fits { fault_with Plain pred.now.tree ≡ None }
    requires count { pred.now.variables ≡ length names_of_demo }
    ensures { IfOk result (IsBuiltNet pred.now) }
{
    let names = demo_names(alloc)?;
    match compile(alloc, pred, &names) {
        Ok(built) => Ok(built),
        Err(Failure::NoMemory) => Err(NoMemory),
        Err(_) => unreachable!(),
    }
}

/// The checked net that is built of a predicate over the names of the demo.
fn checked_of(alloc: Global, pred: Pred) -> Result<Checked, NoMemory>
    requires fits { fault_with Plain pred.tree ≡ None }
    requires count { pred.variables ≡ length names_of_demo }
    ensures net { IfOk result (λ checked. checked.net ≡ built_net names_of_demo pred.tree) }
    ensures pred { IfOk result (λ checked. checked.pred ≡ pred) }
{
    let (net, proof) = built(alloc, &pred)?;
    match check(alloc, net, pred, &proof) {
        Ok(checked) => Ok(checked),
        Err(Failure::NoMemory) => Err(NoMemory),
        Err(Failure::Fault(_)) => unreachable!(),
    }
}

/// The case of a number.
fn case_of(alloc: Global, number: u32) -> Result<Case, NoMemory>
    requires { number ≤ DEMO_LIMIT }
    ensures number { IfOk result (λ case. case.number ≡ number) }
    ensures case { IfOk result IsCase }
{
    let (pred, counts) = demo_case(alloc, number)?;
    let checked = checked_of(alloc, pred)?;
    Ok(Case {
        number,
        checked,
        counts,
    })
}

/// The crowd in which a case starts.
fn first_crowd(alloc: Global, case: &Case) -> Result<Crowd, NoMemory>
    requires { IsCase case.now }
    ensures { IfOk result (λ crowd. IsStart case.now.checked.net (record { counts = case.now.counts; crowd = crowd })) }
{
    match Crowd::of_counts(alloc, case.checked.net(), case.counts.as_slice()) {
        Ok(crowd) => Ok(crowd),
        Err(Failure::NoMemory) => Err(NoMemory),
        Err(Failure::Fault(CrowdFault::Size(_))) => unreachable!(),
    }
}

/// What `demo` prepares for a number. It reads nothing.
pub fn prepare_demo(alloc: Global, number: u32) -> Result<Prepared, NoMemory>
    requires { number ≤ DEMO_LIMIT }
    ensures leads { IfOk result (LeadsTo (λ output. DemoGives number (Ok output))) }
    ensures plain { IfOk result NeedsNoThreads }
{
    let case = case_of(alloc, number)?;
    let crowd = first_crowd(alloc, &case)?;
    Ok(Prepared::Demo(PendingDemo { case, crowd }))
}

fn changed_in(meetings: &[Meeting]) -> usize
    ensures count { result ≡ count_by (λ m. m.changed) meetings.now }
{
    meetings.iter().filter(|m| m.changed).count()
}

/// How many meetings changed a tuple.
fn changed_of(rounds: &[List<Meeting>]) -> u64
    requires { length (joined rounds.now) < 2 ^ 64 }
    ensures { result ≡ changed rounds.now }
{
    let mut total = 0u64;
    for meetings in rounds {
        total += changed_in(meetings.as_slice()) as u64;
    }
    total
}

/// Adds a line with a word and a number.
fn push_count(text: &mut Vec<u8>, name: &str, number: u64) -> Result<(), AllocError>
    ensures { OnOk result (text.new.items ≡ text.old.items ++ ended (name.now ++ decimal number)) }
{
    text.extend_from_slice(name.as_bytes())?;
    push_number(text, number)?;
    text.extend_from_slice(b"\n")
}

/// Adds a line with a word and a text.
fn push_text(text: &mut Vec<u8>, name: &str, line: &str) -> Result<(), AllocError>
    ensures { OnOk result (text.new.items ≡ text.old.items ++ ended (name.now ++ line.now)) }
{
    text.extend_from_slice(name.as_bytes())?;
    text.extend_from_slice(line.as_bytes())?;
    text.extend_from_slice(b"\n")
}

/// The summary of a run of a case.
fn summary_of(alloc: Global, case: &Case, run: &RunEnd, last: Last) -> Result<Vec<u8>, NoMemory>
    requires case { IsCase case.now }
    requires agents { length run.now.crowd ≡ length (demo_start case.now.number) }
    requires few { length (joined run.now.rounds) < 2 ^ 64 }
    ensures { IfOk result (λ text. text.items ≡ text_of (summary_lines case.now.number run.now.rounds last)) }
{
    let checked = &case.checked;
    let pred = print_pred(alloc, checked.pred(), checked.net().var_names())?;
    let rounds = run.rounds.as_slice();
    let mut text = Vec::new(alloc);
    push_count(&mut text, "demo ", u64::from(case.number))?;
    push_text(&mut text, "pred ", pred.as_str())?;
    push_count(&mut text, "agents ", u64::from(run.crowd.len()))?;
    push_count(&mut text, "rounds ", rounds.len() as u64)?;
    push_count(&mut text, "changed ", changed_of(rounds))?;
    push_last_line(&mut text, last)?;
    Ok(text)
}

/// The output for a run of a case.
fn case_output(alloc: Global, case: &Case, run: &RunEnd) -> Result<Output, NoMemory>
    requires case { IsCase case.now }
    requires run { IsRunOfCase case.now run.now }
    ensures { IfOk result (IsDemoOutput case.now.number) }
{
    let counts = case.counts.as_slice();
    let told = Last::Verdict(case.checked.pred().eval(counts));
    let (last, ending) = last_and_ending(told, run.end);
    let text = summary_of(alloc, case, run, last)?;
    Ok(Output::new(text, ending))
}

/// Makes the run of a case. It waits for no thread.
pub fn make_demo<G: Gate>(alloc: Global, demo: PendingDemo, gate: &G) -> Result<Output, NoMemory>
    requires { CanDemo demo }
    ensures { IfOk result (IsDemoOutput demo.case.number) }
{
    let PendingDemo { case, crowd } = demo;
    let spec = demo_run(case.number);
    let end = run_alone(alloc, case.checked.net(), crowd, &spec, gate)?;
    case_output(alloc, &case, &end)
}
