//! An input that is too long, and a call over a source and a sink that never fail.

ghost use Rattle.std.specs.Prelude.{◌≡◌, IfOk};

use crate::rows::{bytes_of, no_troubles};
use pop_io::{CalmSink, CalmSource, List, MemorySink, OpenGate};
use pop_tool::{Status, run_calm, run_tool};
use std::alloc::{AllocError, Global};
use std::test::Fail;

/// More bytes than these calls write.
const ROOM: usize = 4096;

/// One byte more than an input may have.
fn too_many(alloc: Global) -> Result<List<u8>, AllocError> {
    let mut bytes = Vec::from_slice(alloc, b"0")?;
    for _block in 0..32_768 {
        bytes.extend_from_slice(&[b'0'; 4096])?;
    }
    Ok(List::from_vec(bytes))
}

#[test]
fn an_input_that_is_too_long(rt: HostRuntime) -> Result<(), Fail> {
    let alloc = rt.alloc();
    let mut source = CalmSource::new(too_many(alloc)?);
    let mut sink = MemorySink::new(alloc, ROOM, no_troubles(alloc))
        .ok()
        .ok_or("memory")?;
    let status = run_tool(&rt, alloc, &["play"], &mut source, &mut sink, &OpenGate);
    assert!(rt; status == Status::Refused);
    assert_eq!(rt; sink.held(), b"fault: too long\n".as_slice());
    Ok(())
}

fn calm_sink(alloc: Global) -> Result<CalmSink, Fail>
    ensures { IfOk result (λ sink. sink.spare ≡ ROOM) }
{
    match CalmSink::new(alloc, ROOM) {
        Ok(sink) => Ok(sink),
        Err(_) => Err(Fail::from("memory")),
    }
}

#[test]
fn no_words_over_a_calm_sink(rt: HostRuntime) -> Result<(), Fail> {
    let alloc = rt.alloc();
    let mut source = CalmSource::new(bytes_of(alloc, "")?);
    let mut sink = calm_sink(alloc)?;
    let status = run_calm(alloc, &[], &mut source, &mut sink, &OpenGate);
    assert!(rt; status == Status::Usage);
    assert_eq!(rt; sink.held(), b"fault: usage 0 missing\n".as_slice());
    assert_eq!(rt; status.code(), 1);
    Ok(())
}
