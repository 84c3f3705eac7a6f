//! Sources and sinks.

use pop_io::{
    CalmSink, CalmSource, Gate, List, OpenGate, Sink, Source, StdSink, StdSource, Text, is_among,
    place_of, read_all, write_all,
};
use std::alloc::Global;
use std::test::Fail;

/// How many bytes are taken into an array of three, what it then holds, and how many bytes are left.
fn taken(alloc: Global, source: &mut CalmSource) -> Option<(usize, [u8; 3], usize)> {
    let mut out = [0u8; 3];
    let count = source.take(&mut out).ok()?;
    let rest = read_all(alloc, source).ok()?;
    Some((count, out, rest.as_slice().len()))
}

#[test]
fn a_calm_source(rt: HostRuntime) -> Result<(), Fail> {
    let hello = List::from_vec(b"hello".to_vec(rt.alloc())?);
    let taken = taken(rt.alloc(), &mut CalmSource::new(hello));
    assert!(rt; taken == Some((3, *b"hel", 2)));
    Ok(())
}

#[test]
fn a_calm_sink(rt: HostRuntime) -> Result<(), Fail> {
    let mut sink = CalmSink::new(rt.alloc(), 5).ok().ok_or("memory")?;
    let put = sink.put(b"hel").ok();
    assert!(rt; (put, sink.spare()) == (Some(3), 2) && sink.held() == b"hel".as_slice());
    Ok(())
}

#[test]
fn the_standard_streams(rt: HostRuntime) -> Result<(), Fail> {
    let mut sink = StdSink::new(&rt);
    assert!(rt; write_all(&mut sink, b"line\n").is_ok());
    let mut source = StdSource::new(&rt);
    assert!(rt; read_all(rt.alloc(), &mut source).is_ok());
    OpenGate.pass(0, 1);
    OpenGate.held(0, 1);
    Ok(())
}

/// Where the second of three names is, the last two of which are equal, and whether one that is none of them is found.
fn found(alloc: Global) -> Option<(Option<usize>, bool)> {
    let x = Text::from_string(String::from_str(alloc, "x").ok()?);
    let y = Text::from_string(String::from_str(alloc, "y").ok()?);
    let copy = y.copy(alloc).ok()?;
    let names = vec![in alloc; x, y, copy].ok()?;
    Some((place_of(&names, b"y"), is_among(&names, b"xy")))
}

#[test]
fn names_among_others(rt: HostRuntime) {
    assert!(rt; found(rt.alloc()) == Some((Some(1), false)));
}
