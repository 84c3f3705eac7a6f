//! A bundle as one line of JSON text.

ghost use Rattle.std.specs.Prelude.{◌≡◌, ◌++◌, All, length, OnOk};
ghost use Rattle.serde_json.specs.Written.{compact_text};
ghost use Rattle.cert_text.specs.Bundle.{bundle_data};

use crate::net::write_net;
use crate::pieces::{push_quoted, push_text};
use crate::proof::write_proof;
use cert_json::Bundle;
use pop_io::NoMemory;
use pres_read::print_pred;
use std::alloc::Global;

/// Adds the text of a bundle: no spaces, no line feed, and the members in the byte order of
/// their names. Besides the text it holds at most one name or predicate at a time.
#[tactic(auto, unfolding(crate::specs::Bundle::bundle_data))]
pub fn write_bundle(alloc: Global, out: &mut Vec<u8>, bundle: &Bundle) -> Result<(), NoMemory>
    requires variables { bundle.now.pred.variables ≡ length bundle.now.net.variables }
    requires parts { All (λ part. part.pred.variables ≡ length bundle.now.net.variables) bundle.now.proof.leaves }
    ensures { OnOk result (out.new.items ≡ out.old.items ++ compact_text (bundle_data bundle.now)) }
{
    let Bundle { net, pred, proof } = bundle;
    let names = net.var_names();
    push_text(out, b"{\"net\":")?;
    write_net(alloc, out, net)?;
    push_text(out, b",\"pred\":")?;
    let pred = print_pred(alloc, pred, names)?;
    push_quoted(alloc, out, pred.as_str())?;
    push_text(out, b",\"proof\":")?;
    write_proof(alloc, out, proof, names)?;
    push_text(out, b"}")?;
    Ok(())
}
