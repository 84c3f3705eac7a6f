//! Reading a whole bundle in which leaves may have goals.

ghost use Rattle.std.specs.Prelude.{◌≡◌, length, IfOk};
ghost use Rattle.serde_json.specs.View.{view};
ghost use Rattle.base_json.specs.Faults.{GivesRead};
ghost use Rattle.cert_json.specs.StableBundles.{stable_claim_at, stable_bundle_at};
ghost use Rattle.cert_json.specs.StableCalls.{IsReadStable};

use crate::bundle::net_of;
use crate::part::stable_proof_of;
use crate::read::pred_of;
use base_json::{FormatFault, Path, object_of};
use cert_base::StableProof;
use pop_net::Net;
use pres_ast::Pred;
use serde_json::Value;
use std::alloc::Global;

/// A net, the predicate that it is to compute, and a proof in which leaves may have goals.
#[derive(Drop)]
pub struct StableBundle {
    pub net: Net,
    pub pred: Pred,
    pub proof: StableProof,
}

/// The bundle of this net, with the predicate and the proof beside it.
#[tactic(auto, unfolding(crate::specs::StableBundles::stable_claim_at))]
fn bundle_with(alloc: Global, value: &Value, net: Net) -> Result<StableBundle, FormatFault>
    ensures exact { GivesRead (λ bundle. bundle) result (stable_claim_at net (view value.now)) }
    ensures variables { IfOk result (λ bundle. bundle.pred.variables ≡ length bundle.net.variables) }
{
    let pred = pred_of(alloc, &Path::Root, net.var_names(), value)?;
    let proof = stable_proof_of(alloc, value, &net)?;
    Ok(StableBundle { net, pred, proof })
}

#[tactic(auto, unfolding(crate::specs::StableBundles::stable_bundle_at))]
fn read_exactly(alloc: Global, value: &Value) -> Result<StableBundle, FormatFault>
    ensures exact { GivesRead (λ bundle. bundle) result (stable_bundle_at (view value.now)) }
    ensures variables { IfOk result (λ bundle. bundle.pred.variables ≡ length bundle.net.variables) }
{
    object_of(alloc, &Path::Root, value)?;
    let net = net_of(alloc, &Path::Root, value)?;
    bundle_with(alloc, value, net)
}

/// The bundle of a file, or the first rule that the file breaks, with its path from the file's root.
///
/// The members are examined in the order `net`, `pred`, `proof`, each whole before the next is looked for. Of a leaf
/// with goals these are `pred`, `goals`; of a goal `layers`, `sets`, `nodes`. A leaf with a member `layers`, or without
/// `goals`, is read as in a bundle without goals. Other members are ignored.
pub fn read_stable_bundle(alloc: Global, value: &Value) -> Result<StableBundle, FormatFault>
    ensures { IsReadStable (view value.now) result }
{
    read_exactly(alloc, value)
}
