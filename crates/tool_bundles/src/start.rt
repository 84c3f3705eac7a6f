//! The net of a net line, and the crowd in which a net starts.

ghost use Rattle.std.specs.Prelude.{option_map, IfOk};
ghost use Rattle.serde_json.specs.View.{view};
ghost use Rattle.pop_net.specs.Lanes.{crowd_of, AreValid};
ghost use Rattle.tool_texts.specs.Steps.{GivesStep};
ghost use Rattle.tool_bundles.specs.Start.{net_in, fitting_in, start_in, IsStart};

use crate::named::counts_in;
use net_json::read_net;
use pop_crowd::{Crowd, CrowdFault};
use pop_io::{Failure, List};
use pop_net::Net;
use serde_json::Value;
use std::alloc::Global;
use tool_texts::{Refusal, Stop, stop_of};

/// The net of a line that has this value.
fn net_of_value(alloc: Global, value: &Option<Value>) -> Result<Net, Stop>
    ensures { GivesStep (λ net. net) result (net_in (option_map view value.now)) }
{
    let Some(value) = value else {
        return Err(Failure::Fault(Refusal::NotJson));
    };
    match read_net(alloc, value) {
        Ok(net) => Ok(net),
        Err(fault) => Err(stop_of(fault)),
    }
}

/// How a net starts: the counts of a crowd line, and the crowd that has them.
#[derive(Drop)]
pub struct Start {
    pub counts: List<u64>,
    pub crowd: Crowd,
}

/// How a net starts at a crowd line.
#[tactic(auto, unfolding(crate::specs::Start::fitting_in))]
pub(crate) fn start_of(alloc: Global, net: &Net, line: &[u8]) -> Result<Start, Stop>
    ensures counts { GivesStep (λ start. start.counts) result (fitting_in net.now line.now) }
    ensures start { IfOk result (IsStart net.now) }
{
    let counts = counts_in(alloc, line, net.var_names())?;
    match Crowd::of_counts(alloc, net, counts.as_slice()) {
        Ok(crowd) => Ok(Start { counts, crowd }),
        Err(Failure::Fault(CrowdFault::Size(agents))) => Err(Failure::Fault(Refusal::Size(agents))),
        Err(Failure::NoMemory) => Err(Failure::NoMemory),
    }
}

/// The net of a net line that has this value, and the crowd in which it starts.
#[tactic(auto, unfolding(crate::specs::Start::start_in))]
pub fn net_and_start(
    alloc: Global,
    value: &Option<Value>,
    crowd: &[u8],
) -> Result<(Net, Crowd), Stop>
    ensures start { GivesStep (λ start. (start.0, crowd_of start.0 start.1)) result
        (start_in (option_map view value.now) crowd.now) }
    ensures valid { IfOk result (λ start. AreValid start.0 start.1) }
{
    let net = net_of_value(alloc, value)?;
    let start = start_of(alloc, &net, crowd)?;
    Ok((net, start.crowd))
}
