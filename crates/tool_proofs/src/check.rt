//! The command `check`.

ghost use Rattle.std.specs.Prelude.{◌≡◌};
ghost use Rattle.base_lines.specs.Lines.{lines_of};
ghost use Rattle.pop_checker.specs.ValidStable.{ValidStableProof, stable_bound};
ghost use Rattle.tool_texts.specs.Steps.{Obeys};
ghost use Rattle.tool_bundles.specs.Bundles.{IsBundleWithin};
ghost use Rattle.tool_proofs.specs.Check.{GivesValid, OfBundle, CheckGives};

use crate::certified::valid_lines;
use cert_json::StableBundle;
use pop_checker::check_stable;
use std::alloc::Global;
use tool_bundles::bundle_of_line;
use tool_rejections::rejection_of;
use tool_texts::{Ending, Output, Stop, just_one_line};

/// The output for a bundle whose proof is valid with this bound.
fn valid(alloc: Global, bundle: &StableBundle, bound: u64) -> Result<Output, Stop>
    requires limits { IsBundleWithin bundle.now }
    requires valid { ValidStableProof bundle.now.net bundle.now.pred bundle.now.proof }
    requires bound { bound ≡ stable_bound bundle.now.proof }
    ensures { Obeys (GivesValid bundle.now) (λ output. output) result }
{
    let text = valid_lines(alloc, bundle, bound)?;
    Ok(Output::new(text, Ending::Done))
}

/// The output for a bundle.
fn judge(alloc: Global, bundle: &StableBundle) -> Result<Output, Stop>
    requires { IsBundleWithin bundle.now }
    ensures { Obeys (OfBundle bundle.now) (λ output. output) result }
{
    match check_stable(alloc, &bundle.net, &bundle.pred, &bundle.proof) {
        Ok(bound) => valid(alloc, bundle, bound),
        Err(fault) => rejection_of(alloc, fault),
    }
}

/// What `check` gives for an input that isn't too long.
pub fn check_input(alloc: Global, input: &[u8]) -> Result<Output, Stop>
    ensures { Obeys (CheckGives (lines_of input.now)) (λ output. output) result }
{
    let line = just_one_line(input)?;
    let bundle = bundle_of_line(alloc, line)?;
    judge(alloc, &bundle)
}
