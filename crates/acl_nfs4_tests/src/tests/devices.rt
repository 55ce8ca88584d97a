//! The properties that a source is read no further than its list, and that a call ends at a read or a write that fails.
//! The bytes are in the layout of RFC 4506 over RFC 8881, section 6.2.1.

use super::readers::{ONE, THREE, decoded, fault, parsed, same_list};
use acl_nfs4::*;
use std::alloc::{AllocError, Global};
use std::process::Abort;

// Reads two lists from one source, by reads of at most `step` bytes. Each list is read, and no byte after it is taken.
fn check_both(rt: &impl Abort, alloc: Global, both: &[u8], step: usize) {
    let mut source = Counted::new(Fused::new(both, u64::MAX, step));
    assert!(rt; same_list(decode(alloc, &mut source), parsed(alloc, &ONE)));
    assert!(rt; same_list(decode(alloc, &mut source), parsed(alloc, &THREE)));
    let found = decode(alloc, &mut source).err();
    assert!(rt; found == Some(fault(0, Reason::Truncated)));
}

// A sink that fails after some calls holds exactly the bytes that it took before.
fn check_written(rt: &impl Abort, list: &Acl, calls: u64) {
    let mut room = [0xffu8; 72];
    let mut sink = Counted::new(Fused::new(room.as_mut_slice(), calls, 1));
    let written = list.encode(&mut sink).err().map(|fault| fault.written);
    assert!(rt; written == (calls < 72).then_some(calls));
    let (front, back) = room.split_at((calls as usize).min(72));
    assert!(rt; THREE.starts_with(front) && back.iter().all(|byte| *byte == 0xff));
}

// A count alone requests no memory: the fault of the bytes is returned even if the first request would be refused.
#[test]
fn a_count_alone_takes_no_memory(rt: HostRuntime) {
    let found = decoded(rt.alloc(), &[0, 1, 0, 0], u64::MAX, 4).err();
    assert!(rt; found == Some(fault(4, Reason::Truncated)));
    let found = decoded(rt.alloc(), &[0, 1, 0, 1], u64::MAX, 1).err();
    assert!(rt; found == Some(fault(0, Reason::TooManyAces)));
}

mod ample {
    use super::*;

    #[test]
    fn a_source_is_read_no_further_than_the_list(rt: HostRuntime) -> Result<(), AllocError> {
        let mut both = Vec::new(rt.alloc());
        both.extend_from_slice(&ONE)?;
        both.extend_from_slice(&THREE)?;
        for step in [1, 3, 4096usize] {
            check_both(&rt, rt.alloc(), &both, step);
        }
        Ok(())
    }

    // A read that fails is reported at the field that was being read, at the same place as the end of the input.
    #[test]
    fn a_failed_read_is_reported_at_the_field_that_was_being_read(rt: HostRuntime) {
        for calls in 0..72usize {
            let (front, _) = THREE.split_at(calls.min(72));
            let cut = parsed(rt.alloc(), front).err();
            let found = decoded(rt.alloc(), &THREE, calls as u64, 1).err();
            assert!(rt; found.map(|fault| fault.reason) == Some(Reason::Read));
            assert!(rt; found.map(|fault| fault.offset) == cut.map(|fault| fault.offset));
        }
    }

    #[test]
    fn a_list_is_written_up_to_the_failure(rt: HostRuntime) -> Result<(), Fault> {
        let list = parsed(rt.alloc(), &THREE)?;
        for calls in 0..=72u64 {
            check_written(&rt, &list, calls);
        }
        Ok(())
    }
}
