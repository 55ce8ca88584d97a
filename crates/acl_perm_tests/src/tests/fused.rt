//! Devices that stop after some calls. Rust's documentation of `Read::read_exact` and `Write::write_all` says what the
//! calls for a whole buffer then answer.

use acl_perm::*;
use std::io::{Read, Write};
use std::process::Abort;

fn three_reads(rt: &impl Abort) {
    let mut reader = Fused::new(b"abcde".as_slice(), 2, 2);
    let mut buffer = [0u8; 4];
    assert!(rt; reader.read(&mut buffer).ok() == Some(2));
    assert!(rt; buffer == *b"ab\0\0");
    assert!(rt; reader.read(&mut buffer).ok() == Some(2));
    assert!(rt; buffer == *b"cd\0\0");
    assert!(rt; reader.read(&mut buffer).is_err());
    assert!(rt; reader.into_inner() == b"e".as_slice());
}

fn two_writes(rt: &impl Abort) {
    let mut room = [0u8; 8];
    let mut writer = Fused::new(room.as_mut_slice(), 1, 3);
    assert!(rt; writer.flush().is_ok());
    assert!(rt; writer.write(b"abcde").ok() == Some(3));
    assert!(rt; writer.write(b"de").is_err());
    assert!(rt; room == *b"abc\0\0\0\0\0");
}

// No clause of `Fused` can say this: the calls before the last one are passed on.
#[test]
fn a_fused_device_passes_its_first_calls(rt: HostRuntime) {
    three_reads(&rt);
    two_writes(&rt);
}

// Writes a whole buffer to a device that allows this many calls and this many bytes.
fn whole_write(rt: &impl Abort, calls: u64, passed: usize) {
    let mut room = [0u8; 5];
    let mut writer = Fused::new(room.as_mut_slice(), calls, 2);
    assert!(rt; writer.write_all(b"abcde").is_ok() == (passed == 5));
    assert!(rt; writer.flush().is_ok());
    assert!(rt; writer.into_inner().len() == 5usize.saturating_sub(passed));
}

fn whole_read(rt: &impl Abort, calls: u64, passed: usize) {
    let mut reader = Fused::new(b"abcde".as_slice(), calls, 2);
    assert!(rt; reader.read_exact(&mut [0u8; 5]).is_ok() == (passed == 5));
    assert!(rt; reader.into_inner().len() == 5usize.saturating_sub(passed));
}

// The calls of std's traits for a whole buffer fail if the device stops before the end of the buffer. It still flushes.
#[test]
fn a_spent_device_fails_whole_buffers(rt: HostRuntime) {
    for (calls, passed) in [(0u64, 0usize), (1, 2), (2, 4), (3, 5)] {
        whole_write(&rt, calls, passed);
        whole_read(&rt, calls, passed);
    }
}
