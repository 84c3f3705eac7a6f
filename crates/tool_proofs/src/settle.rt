//! The command `settle`.

ghost use Rattle.std.specs.Prelude.{◌≡◌, ◌++◌, map, None, IfOk, OnOk};
ghost use Rattle.base_lines.specs.Lines.{lines_of, ended};
ghost use Rattle.pop_net.specs.Lanes.{crowd_of, AreValid};
ghost use Rattle.run_text.specs.Journal.{text_of};
ghost use Rattle.tool_texts.specs.Steps.{Obeys};
ghost use Rattle.tool_bundles.specs.Start.{IsStart};
ghost use Rattle.tool_bundles.specs.Bundles.{IsBundleWithin};
ghost use Rattle.pop_checker.specs.ValidStable.{ValidStableProof};
ghost use Rattle.tool_proofs.specs.Settle.{take_line, takes_text, settle_text, OfJudged, OfBegun, SettleGives};

use base_lines::push_field;
use cert_json::StableBundle;
use pop_checker::check_stable;
use pop_crowd::Crowd;
use pop_io::{Failure, NoMemory};
use pop_net::Net;
use pop_settle::{SettleFault, Settled, Take, settle_goals};
use run_text::{Last, push_last_line};
use std::alloc::{AllocError, Global};
use tool_bundles::{Start, begin, last_of};
use tool_rejections::rejection_of;
use tool_texts::{Ending, Output, Refusal, Stop, just_two_lines};

fn push_take(text: &mut Vec<u8>, take: Take) -> Result<(), AllocError>
    ensures { OnOk result (text.new.items ≡ text.old.items ++ ended (take_line take)) }
{
    push_field(text, "take ", u64::from(take.leaf))?;
    push_field(text, " ", u64::from(take.step))?;
    push_field(text, " ", u64::from(take.a))?;
    push_field(text, " ", u64::from(take.b))?;
    text.extend_from_slice(b"\n")
}

fn push_takes(text: &mut Vec<u8>, takes: &[Take]) -> Result<(), AllocError>
    ensures { OnOk result (text.new.items ≡ text.old.items ++ text_of (map take_line takes.now)) }
{
    for take in takes {
        push_take(text, *take)?;
    }
    Ok(())
}

/// The takes, and the lines of the last crowd.
fn takes_text(alloc: Global, net: &Net, settled: &Settled) -> Result<Vec<u8>, NoMemory>
    requires { AreValid net.now settled.now.crowd }
    ensures { IfOk result (λ text.
        text.items ≡ takes_text net.now settled.now.takes (crowd_of net.now settled.now.crowd)) }
{
    let mut text = Vec::new(alloc);
    push_takes(&mut text, settled.takes.as_slice())?;
    text.extend_from_slice(b"end\n")?;
    let crowd = settled.crowd.tally(alloc, net)?;
    text.extend_from_slice(crowd.as_slice())?;
    Ok(text)
}

/// The takes, the lines of the last crowd, and the last line.
fn settled_text(
    alloc: Global,
    net: &Net,
    settled: &Settled,
    last: Last,
) -> Result<Vec<u8>, NoMemory>
    requires { AreValid net.now settled.now.crowd }
    ensures { IfOk result (λ text.
        text.items ≡ settle_text net.now settled.now.takes (crowd_of net.now settled.now.crowd) last) }
{
    let mut text = takes_text(alloc, net, settled)?;
    push_last_line(&mut text, last)?;
    Ok(text)
}

/// The settlement of the crowd of a bundle whose proof is valid, by the layers that the counts choose.
fn settle_valid(
    alloc: Global,
    bundle: &StableBundle,
    counts: &[u64],
    crowd: Crowd,
) -> Result<Output, Stop>
    requires limits { IsBundleWithin bundle.now }
    requires valid { ValidStableProof bundle.now.net bundle.now.pred bundle.now.proof }
    requires start { IsStart bundle.now.net (record { counts = counts.now; crowd = crowd }) }
    ensures { Obeys (OfJudged bundle.now counts.now None) (λ output. output) result }
{
    match settle_goals(alloc, &bundle.net, &bundle.proof, counts, crowd) {
        Ok(settled) => {
            let last = last_of(&bundle.proof, bundle.pred.eval(counts));
            let text = settled_text(alloc, &bundle.net, &settled, last)?;
            Ok(Output::new(text, Ending::Done))
        }
        Err(Failure::Fault(SettleFault::Long(takes))) => Err(Failure::Fault(Refusal::Settle(
            takes,
        ))),
        Err(Failure::NoMemory) => Err(Failure::NoMemory),
    }
}

/// The output for a bundle's crowd, if the proof is valid.
fn settle_begun(
    alloc: Global,
    bundle: &StableBundle,
    counts: &[u64],
    crowd: Crowd,
) -> Result<Output, Stop>
    requires limits { IsBundleWithin bundle.now }
    requires start { IsStart bundle.now.net (record { counts = counts.now; crowd = crowd }) }
    ensures { Obeys (OfBegun bundle.now counts.now) (λ output. output) result }
{
    match check_stable(alloc, &bundle.net, &bundle.pred, &bundle.proof) {
        Ok(_bound) => settle_valid(alloc, bundle, counts, crowd),
        Err(fault) => rejection_of(alloc, fault),
    }
}

/// What `settle` gives for an input that isn't too long.
pub fn settle_input(alloc: Global, input: &[u8]) -> Result<Output, Stop>
    ensures { Obeys (SettleGives (lines_of input.now)) (λ output. output) result }
{
    let lines = just_two_lines(input)?;
    let (bundle, start) = begin(alloc, lines)?;
    let Start { counts, crowd } = start;
    settle_begun(alloc, &bundle, counts.as_slice(), crowd)
}
