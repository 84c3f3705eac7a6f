//! What is written for a proof, and read again.

ghost use Rattle.std.specs.Prelude.{length, IfSome};
ghost use Rattle.cert_base.specs.ProofLimits.{IsProofWithin};

use base_json::FormatFault;
use cert_base::Proof;
use cert_json::{read_proof, write_proof};
use net_json::read_net;
use pop_net::Net;
use serde_json::Value;
use std::alloc::Global;

const NET: &str =
    "{\"format\":1,\"vars\":[\"x\"],\"leaves\":[{\"states\":[\"A\",\"t\"],\"moves\":[],\"input\":[0],\"output\":[false,true]}],\"combine\":[0]}";

/// Nodes of each kind; the greatest and the least numbers are among them.
const NODES: &str =
    "[[\"present\",0],[\"lin\",[[0,0],[0,1099511627776]]],[\"residue\",200,[]],[\"split\",[[0,0],[4294967295,-1]],-1099511627776],[\"present\",65535],[\"twin\",0],[\"trap\",[]],[\"siphon\",[0,65535]],[\"open\",4294967295],[\"first\",[1,65535]]]";

const LAYERS: &str = "[{\"moves\":[0,1],\"weights\":[1,0]}]";

fn net(alloc: Global) -> Option<Net> {
    let value = Value::from_str(alloc, NET).ok()?;
    read_net(alloc, &value).ok()
}

/// The list that is written for the proof of one leaf.
fn wanted(alloc: Global) -> Option<String> {
    format!(in alloc;
        "[{{\"false\":[],\"layers\":{LAYERS},\"pred\":\"-x < 0\",\"true\":{NODES}}}]"
    ).ok()
}

/// A bundle whose one leaf has this proof, with its members in another order than the written one.
fn first_text(alloc: Global) -> Option<String> {
    format!(in alloc;
        "{{\"proof\":[{{\"pred\":\"-x < 0\",\"layers\":{LAYERS},\"true\":{NODES},\"false\":[]}}]}}"
    ).ok()
}

/// A bundle whose one leaf has this proof as it is written.
fn second_text(alloc: Global) -> Option<String> {
    let wanted = wanted(alloc)?;
    format!(in alloc; "{{\"proof\":{wanted}}}").ok()
}

fn bundle(alloc: Global, is_first: bool) -> Option<Value> {
    let text = if is_first {
        first_text(alloc)
    } else {
        second_text(alloc)
    };
    Value::from_str(alloc, text?.as_str()).ok()
}

fn proof(alloc: Global, net: &Net, is_first: bool) -> Option<Proof>
    ensures { IfSome result (IsProofWithin (length net.now.variables) (length net.now.leaves)) }
{
    let bundle = bundle(alloc, is_first)?;
    read_proof(alloc, &bundle, net).ok()
}

fn text_of(alloc: Global, net: &Net, proof: &Proof) -> Option<String>
    requires { IsProofWithin (length net.now.variables) (length net.now.leaves) proof.now }
{
    let value = write_proof(alloc, proof, net.var_names()).ok()?;
    value.to_string(alloc).ok()
}

/// What is written for the proof in a bundle.
fn written(alloc: Global, is_first: bool) -> Option<String> {
    let net = net(alloc)?;
    let proof = proof(alloc, &net, is_first)?;
    text_of(alloc, &net, &proof)
}

/// Whether what is written for the proof in a bundle is what is wanted.
fn is_written(alloc: Global, is_first: bool) -> Option<bool> {
    let text = written(alloc, is_first)?;
    let wanted = wanted(alloc)?;
    Some(text.as_bytes() == wanted.as_bytes())
}

#[test]
fn a_proof_is_read_over_a_net(rt: HostRuntime) {
    assert!(rt; is_written(rt.alloc(), true) == Some(true));
    assert!(rt; is_written(rt.alloc(), false) == Some(true));
}

/// The fault of a value without a proof.
fn fault(alloc: Global) -> Option<FormatFault> {
    let net = net(alloc)?;
    read_proof(alloc, &Value::Null, &net).err()
}

/// Whether it is reported at the proof's member.
fn lacks_a_proof(alloc: Global) -> Option<bool> {
    match fault(alloc)? {
        FormatFault::Broken { path, why: _ } => Some(path.as_str() == "/proof"),
        FormatFault::NoMemory => None,
    }
}

#[test]
fn no_object_has_a_proof(rt: HostRuntime) {
    assert!(rt; lacks_a_proof(rt.alloc()) == Some(true));
}
