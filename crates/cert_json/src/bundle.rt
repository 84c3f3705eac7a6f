//! A whole bundle: a net, a predicate, and the proof that the net computes it.

ghost use Rattle.std.specs.Prelude.{codes};
ghost use Rattle.serde_json.specs.View.{view};
ghost use Rattle.base_json.specs.Faults.{GivesRead};
ghost use Rattle.base_json.specs.Paths.{path_text};
ghost use Rattle.base_json.specs.Shapes.{member_by};
ghost use Rattle.net_json.specs.Examined.{net_at};

use base_json::{FormatFault, Path, member_of};
use cert_base::Proof;
use net_json::read_net_at;
use pop_net::Net;
use pres_ast::Pred;
use serde_json::Value;
use std::alloc::Global;

#[derive(Drop)]
pub struct Bundle {
    pub net: Net,
    pub pred: Pred,
    pub proof: Proof,
}

/// The member `net` of a bundle.
pub(crate) fn net_of(alloc: Global, path: &Path<'_>, value: &Value) -> Result<Net, FormatFault>
    ensures { GivesRead (λ net. net) result
        (member_by (path_text path.now) (codes "net") net_at (view value.now)) }
{
    let net = member_of(alloc, path, "net", value)?;
    read_net_at(alloc, &Path::Member(path, "net"), net)
}
