//! Whole reads and whole writes with ample memory: they succeed, or they end at the call that fails. The bytes that are
//! expected are those that the device has; `whole.rt` says how the calls are counted.

use super::harness::Slip;
use super::whole::{read_ended, write_ended};
use acl_perm::*;
use std::io;
use std::io::Read;
use std::test::Fail;

// The call that fails is an error, or takes no byte, which is the end of a read.
#[test]
fn whole_reads_and_writes_end_at_the_call_that_fails(rt: HostRuntime) {
    for passed in 0..4u64 {
        for slip in [Slip::Error, Slip::Nothing] {
            write_ended(&rt, passed + 1, passed, slip);
            read_ended(&rt, rt.alloc(), passed + 1, passed, slip);
        }
    }
}

#[test]
fn whole_reads_and_writes_succeed(rt: HostRuntime) {
    let mut source = Counted::new(b"granted".as_slice());
    match read_all(rt.alloc(), &mut source) {
        Ok(bytes) => assert!(rt; bytes.as_slice() == b"granted".as_slice()),
        Err(_) => assert!(rt; false, "out of memory"),
    }
    let mut sink = Counted::new(Vec::new(rt.alloc()));
    assert!(rt; put_all(&mut sink, b"granted").is_ok());
    assert!(rt; sink.into_inner().as_slice() == b"granted".as_slice());
}

#[test]
fn a_whole_read_goes_past_a_megabyte(rt: HostRuntime) -> Result<(), Fail> {
    let mut source = Counted::new(io::repeat(b'a').take(1_200_000));
    let bytes = read_all(rt.alloc(), &mut source)?;
    assert!(rt; bytes.len() == 1_200_000);
    assert!(rt; bytes.iter().all(|byte| *byte == b'a'));
    Ok(())
}
