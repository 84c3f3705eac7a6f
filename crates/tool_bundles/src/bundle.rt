//! The bundle of a line, and how its net starts.

ghost use Rattle.std.specs.Prelude.{option_map, IfOk};
ghost use Rattle.serde_json.specs.View.{view};
ghost use Rattle.tool_texts.specs.Steps.{GivesStep, Obeys};
ghost use Rattle.tool_bundles.specs.Start.{IsStart};
ghost use Rattle.tool_bundles.specs.Bundles.{bundle_in, begun, IsBundleOf, IsBegunBy, IsBundleWithin};

use crate::start::{Start, start_of};
use cert_json::{StableBundle, read_stable_bundle};
use pop_io::Failure;
use serde_json::Value;
use std::alloc::Global;
use tool_texts::{Refusal, Stop, stop_of, value_of};

/// The bundle of a line that has this value.
fn bundle_of_value(alloc: Global, value: &Option<Value>) -> Result<StableBundle, Stop>
    ensures bundle { GivesStep (λ bundle. bundle) result (bundle_in (option_map view value.now)) }
    ensures limits { IfOk result IsBundleWithin }
{
    let Some(value) = value else {
        return Err(Failure::Fault(Refusal::NotJson));
    };
    match read_stable_bundle(alloc, value) {
        Ok(bundle) => Ok(bundle),
        Err(fault) => Err(stop_of(fault)),
    }
}

/// The bundle of a line. The line's value is dropped.
pub fn bundle_of_line(alloc: Global, line: &[u8]) -> Result<StableBundle, Stop>
    ensures bundle { Obeys (IsBundleOf line.now) (λ bundle. bundle) result }
    ensures limits { IfOk result IsBundleWithin }
{
    let value = value_of(alloc, line)?;
    bundle_of_value(alloc, &value)
}

/// The bundle of a line that has this value, and how its net starts at a crowd line.
#[tactic(auto, unfolding(crate::specs::Bundles::begun))]
fn bundle_and_start(
    alloc: Global,
    value: &Option<Value>,
    crowd: &[u8],
) -> Result<(StableBundle, Start), Stop>
    ensures begun { GivesStep
        (λ begin. (begin.0, begin.1.counts)) result (begun (option_map view value.now) crowd.now) }
    ensures limits { IfOk result (λ begin. IsBundleWithin begin.0) }
    ensures start { IfOk result (λ begin. IsStart begin.0.net begin.1) }
{
    let bundle = bundle_of_value(alloc, value)?;
    let start = start_of(alloc, &bundle.net, crowd)?;
    Ok((bundle, start))
}

/// The bundle of the first line, and how its net starts at the second. The first line's value is dropped.
pub fn begin(alloc: Global, lines: (&[u8], &[u8])) -> Result<(StableBundle, Start), Stop>
    ensures begun { Obeys (IsBegunBy lines.entry.0.now lines.entry.1.now)
        (λ begin. (begin.0, begin.1.counts)) result }
    ensures limits { IfOk result (λ begin. IsBundleWithin begin.0) }
    ensures start { IfOk result (λ begin. IsStart begin.0.net begin.1) }
{
    let value = value_of(alloc, lines.0)?;
    bundle_and_start(alloc, &value, lines.1)
}
