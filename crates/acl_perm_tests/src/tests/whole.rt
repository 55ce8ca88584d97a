//! Whole reads and whole writes with devices that fail: they end at the first failure, and report it. The expected
//! numbers are counted by hand: each call before the failure takes two bytes. A write that takes no byte is a failure,
//! and a read that gives none is the end, by Rust's documentation of `ErrorKind::WriteZero` and `Read::read`.

use super::harness::{FailsOnce, Slip};
use acl_perm::*;
use std::alloc::Global;
use std::process::Abort;

// A whole write to a sink that allows this many calls and then fails: the answer, the number of failures, and the
// number of bytes that were written.
fn stopped_write(calls: u64) -> (Result<(), WriteFault>, u64, usize) {
    let mut room = [0u8; 7];
    let mut sink = Counted::new(Fused::new(room.as_mut_slice(), calls, 2));
    let answer = put_all(&mut sink, b"granted");
    let failures = sink.failures();
    let written = room.iter().filter(|byte| **byte != 0).count();
    (answer, failures, written)
}

// A whole read of a source that allows this many calls and then fails.
fn read_stopped(rt: &impl Abort, alloc: Global, calls: u64) {
    let mut source = Counted::new(Fused::new(b"granted".as_slice(), calls, 2));
    match read_all(alloc, &mut source) {
        Ok(_) => assert!(rt; false, "the source failed"),
        Err(InputFault::Read) => assert!(rt; source.failures() == 1),
        Err(InputFault::Memory) => {}
    }
}

// Whole writes to a sink that fails at the second and each later put, and whole reads of a source that fails at each
// read in turn.
#[test]
fn whole_reads_and_writes_stop_at_the_first_failure(rt: HostRuntime) {
    for calls in 0..4u64 {
        let written = calls.saturating_mul(2);
        let stopped = (Err(WriteFault { written }), 1, written as usize);
        assert!(rt; stopped_write(calls) == stopped, "{calls} calls");
        read_stopped(&rt, rt.alloc(), calls);
    }
    let mut source = Counted::new(Fused::new(b"granted".as_slice(), 9, 2));
    match read_all(rt.alloc(), &mut source) {
        Ok(bytes) => assert!(rt; bytes.as_slice() == b"granted".as_slice()),
        Err(fault) => assert!(rt; fault == InputFault::Memory),
    }
}

// Returns the part of these bytes that this many calls take, two bytes each.
fn first(bytes: &[u8], calls: u64) -> &[u8] {
    &bytes[..bytes.len().min(calls.saturating_mul(2) as usize)]
}

/// A whole write to a sink whose call `failing` fails, after this many calls that succeeded.
pub fn write_ended(rt: &impl Abort, failing: u64, passed: u64, slip: Slip) {
    let mut room = [0u8; 7];
    let mut sink = Counted::new(FailsOnce::new(room.as_mut_slice(), failing, slip));
    let written = passed.saturating_mul(2);
    assert!(rt; put_all(&mut sink, b"granted") == Err(WriteFault { written }));
    assert!(rt; sink.failures() == 1);
    assert!(rt; sink.into_inner().calls == failing);
    assert!(rt; room.starts_with(first(b"granted", passed)));
}

/// A whole read of a source whose call `failing` fails, after this many calls that succeeded.
pub fn read_ended(rt: &impl Abort, alloc: Global, failing: u64, passed: u64, slip: Slip) {
    let mut source = Counted::new(FailsOnce::new(b"granted".as_slice(), failing, slip));
    match (read_all(alloc, &mut source), slip) {
        (Err(InputFault::Read), Slip::Error) => assert!(rt; source.failures() == 1),
        (Ok(bytes), Slip::Nothing) => {
            assert!(rt; bytes.as_slice() == first(b"granted", passed));
            assert!(rt; source.failures() == 0);
        }
        _ => assert!(rt; false, "call {failing} failed"),
    }
    assert!(rt; source.into_inner().calls == failing);
}
