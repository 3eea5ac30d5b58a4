//! Ends of commands over sinks and sources in memory that fail, have no memory, or take and give all.

use super::*;
use agent_link::{Fault, MemSink, MemSource};
use std::alloc::Global;
use std::test::Fail;

#[test]
fn a_text_is_written_and_its_status_told(rt: HostRuntime) -> Result<(), Fail> {
    let alloc = rt.alloc();
    let mut sink = MemSink::new(alloc, Vec::new(alloc));
    assert_eq!(rt; finish(&mut sink, b"ok\n", 13), 13);
    assert_eq!(rt; sink.bytes(), b"ok\n".as_slice());
    Ok(())
}

#[test]
fn a_sink_that_fails_ends_with_status_8(rt: HostRuntime) -> Result<(), Fail> {
    let alloc = rt.alloc();
    let mut sink = MemSink::new(alloc, vec![in alloc; 0]?);
    assert_eq!(rt; finish(&mut sink, b"ok\n", 0), 8);
    assert_eq!(rt; sink.bytes(), b"".as_slice());
    Ok(())
}

#[test]
fn each_fault_has_its_status(rt: HostRuntime) {
    assert_eq!(rt; exit_status(Ok(()), 3), 3);
    assert_eq!(rt; exit_status(Err(Fault::Failed), 3), 8);
    assert_eq!(rt; exit_status(Err(Fault::NoMemory), 3), 7);
}

/// What comes of a source of these bytes whose calls with these numbers fail, and what was written.
fn of_source(
    alloc: Global,
    bytes: &[u8],
    fails: Vec<u64>,
) -> Result<(Result<Vec<u8>, u8>, MemSink), Fail> {
    let mut source = MemSource::new(Vec::from_slice(alloc, bytes)?, fails);
    let mut sink = MemSink::new(alloc, Vec::new(alloc));
    let text = source_text(alloc, &mut source, &mut sink);
    Ok((text, sink))
}

#[test]
fn a_source_is_read_to_its_end(rt: HostRuntime) -> Result<(), Fail> {
    let alloc = rt.alloc();
    let (text, sink) = of_source(alloc, b"tasks 1\n", Vec::new(alloc))?;
    assert_eq!(rt; text.map_or(0, |text| text.len()), 8);
    assert_eq!(rt; sink.bytes(), b"".as_slice());
    Ok(())
}

#[test]
fn a_source_that_fails_ends_with_status_9(rt: HostRuntime) -> Result<(), Fail> {
    let alloc = rt.alloc();
    let (text, sink) = of_source(alloc, b"tasks 1\n", vec![in alloc; 1]?)?;
    assert_eq!(rt; text.err(), Some(9));
    assert_eq!(rt; sink.bytes(), b"fault source\n".as_slice());
    Ok(())
}

#[test]
fn a_bad_line_has_its_number(rt: HostRuntime) -> Result<(), Fail> {
    let alloc = rt.alloc();
    let mut sink = MemSink::new(alloc, Vec::new(alloc));
    assert_eq!(rt; refuse_line(&mut sink, 12), 2);
    assert_eq!(rt; sink.bytes(), b"fault script 12\n".as_slice());
    Ok(())
}
