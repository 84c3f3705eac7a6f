//! A net whose proof is valid, and where its runs end.

ghost use Rattle.std.specs.Prelude.{◌≡◌, length, Some, IfOk};
ghost use Rattle.pop_io.specs.Failures.{IfFault};
ghost use Rattle.tool_rejections.specs.Judged.{IsJudged};
ghost use Rattle.tool_bundles.specs.Bundles.{IsBundleWithin};
ghost use Rattle.tool_courses.specs.Proved.{proved_net, proved_rest, proved_pred, proved_last, IsProvedOf};

use cert_json::StableBundle;
use pop_checker::{StableRejected, check_stable, is_silent};
use pop_io::Failure;
use pop_net::Net;
use pop_settle::resting_net;
use pres_ast::Pred;
use run_text::Last;
use std::alloc::Global;

/// A net whose proof is valid, and where its runs end.
#[derive(Drop)]
pub enum Proved {
    /// A run ends where the crowd is terminal.
    Silent { net: Net, pred: Pred },
    /// A run ends where no move of the net `rest` is possible, though agents may go on changing.
    Stable { net: Net, rest: Net, pred: Pred },
}

impl Proved {
    /// The net.
    pub fn net(&self) -> &Net
        ensures { result.now ≡ proved_net self.now }
    {
        match self {
            Proved::Silent { net, .. } => net,
            Proved::Stable { net, .. } => net,
        }
    }

    /// The net whose moves decide where a run ends.
    pub fn rest(&self) -> &Net
        ensures { result.now ≡ proved_rest self.now }
    {
        match self {
            Proved::Silent { net, .. } => net,
            Proved::Stable { rest, .. } => rest,
        }
    }

    /// The last line of a run that ends there.
    pub fn last(&self, counts: &[u64]) -> Last
        requires { (proved_pred self.now).variables ≡ length counts.now }
        ensures { result ≡ proved_last self.now counts.now }
    {
        match self {
            Proved::Silent { pred, .. } => Last::Verdict(pred.eval(counts)),
            Proved::Stable { pred, .. } => Last::Settled(pred.eval(counts)),
        }
    }
}

/// The net of a bundle, if its proof is valid, and where its runs from these counts end.
pub fn prove(
    alloc: Global,
    bundle: StableBundle,
    counts: &[u64],
) -> Result<Proved, Failure<StableRejected>>
    requires limits { IsBundleWithin bundle }
    requires counts { length counts.now ≡ length bundle.net.variables }
    ensures proved { IfOk result (IsProvedOf bundle counts.now) }
    ensures fault { IfFault result (λ rejected. IsJudged bundle (Some rejected)) }
{
    let StableBundle { net, pred, proof } = bundle;
    check_stable(alloc, &net, &pred, &proof)?;
    if is_silent(&proof) {
        return Ok(Proved::Silent { net, pred });
    }
    let rest = resting_net(alloc, &net, &proof, counts)?;
    Ok(Proved::Stable { net, rest, pred })
}
