//! The text written for a net.

use net_json::{read_net, write_net};
use pop_net::Net;
use serde_json::Value;
use std::alloc::Global;

const NET: &str =
    "{\"format\":1,\"vars\":[\"x\"],\"leaves\":[{\"states\":[\"A\",\"B\"],\"moves\":[[0,1,1,1]],\"input\":[0],\"output\":[true,false]}],\"combine\":[0]}";

const WRITTEN_NET: &str =
    "{\"combine\":[0],\"format\":1,\"leaves\":[{\"input\":[0],\"moves\":[[0,1,1,1]],\"output\":[true,false],\"states\":[\"A\",\"B\"]}],\"vars\":[\"x\"]}";

const HELPED_NET: &str =
    "{\"format\":2,\"vars\":[\"x\"],\"leaves\":[{\"states\":[\"A\",\"B\"],\"moves\":[],\"input\":[0],\"output\":[true,false],\"helpers\":[1,1]},{\"states\":[\"A\"],\"moves\":[],\"input\":[0],\"output\":[true],\"helpers\":[0,0]}],\"combine\":[0,1,\"and\"]}";

const WRITTEN_HELPED_NET: &str =
    "{\"combine\":[0,1,\"and\"],\"format\":2,\"leaves\":[{\"helpers\":[1,1],\"input\":[0],\"moves\":[],\"output\":[true,false],\"states\":[\"A\",\"B\"]},{\"helpers\":[0,0],\"input\":[0],\"moves\":[],\"output\":[true],\"states\":[\"A\"]}],\"vars\":[\"x\"]}";

fn net(alloc: Global, text: &str) -> Option<Net> {
    let value = Value::from_str(alloc, text).ok()?;
    read_net(alloc, &value).ok()
}

/// The text written for a net.
fn text_of(alloc: Global, net: &Net) -> Option<String> {
    let value = write_net(alloc, net).ok()?;
    value.to_string(alloc).ok()
}

/// The text written for the net of a text.
fn written(alloc: Global, text: &str) -> Option<String> {
    let net = net(alloc, text)?;
    text_of(alloc, &net)
}

/// Whether this is the text written for the net of a text.
fn is_written(alloc: Global, text: &str, wanted: &str) -> Option<bool> {
    let line = written(alloc, text)?;
    Some(line.as_bytes() == wanted.as_bytes())
}

#[test]
fn what_is_written_is_read_again(rt: HostRuntime) {
    assert!(rt; is_written(rt.alloc(), NET, WRITTEN_NET) == Some(true));
    assert!(rt; is_written(rt.alloc(), WRITTEN_NET, WRITTEN_NET) == Some(true));
}

#[test]
fn nets_with_helpers_are_written_in_format_2(rt: HostRuntime) {
    assert!(rt; is_written(rt.alloc(), HELPED_NET, WRITTEN_HELPED_NET) == Some(true));
}
