//! Values of nfsacl41, as the routines that rpcgen makes of Samba's description write and read them. The
//! texts and the offsets are those of the layout of RFC 4506; the reasons are this library's own.

use super::shown::is_list_shown_as;
use acl_forms::*;
use acl_nfs4::{Acl, Counted, Reason};
use std::alloc::Global;
use std::test::Fail;

// The value, its flags, and the text of its list.
static VALUES: [(&[u8], u32, &str); 5] = [
    (b"\0\0\0\x01\0\0\0\0", 1, ""),
    (b"\0\x03\0\x02\0\0\0\0", 0x0003_0002, ""),
    (b"\0\0\0\x04\0\0\0\0", 4, ""),
    (
        b"\0\0\0\0\0\0\0\x01\0\0\0\0\0\0\0\0\0\x10\0C\0\0\0\x06GROUP@\0\0",
        0,
        "ALLOW - READ_DATA|WRITE_DATA|DELETE_CHILD|SYNCHRONIZE GROUP@\n",
    ),
    (
        b"\0\0\0\x01\0\0\0\x01\0\0\0\x01\0\0\0\0\0\x17\0&\0\0\0\x06OWNER@\0\0",
        1,
        "DENY - WRITE_DATA|APPEND_DATA|EXECUTE|DELETE|READ_ACL|WRITE_ACL|SYNCHRONIZE OWNER@\n",
    ),
];

// A value, and the place and the reason of its first fault.
static FAULTS: [(&[u8], u64, Reason); 11] = [
    (b"\0\0", 0, Reason::Truncated),
    (b"\0\0\0\x02.\0\0\0", 4, Reason::TooManyAces),
    (
        b"\0\0\0\x07\0\0\0\x01\0\0\0\x02\0\0\0\0",
        8,
        Reason::AuditOrAlarm,
    ),
    (
        b"\0\0\0\x01\0\0\0\x01\0\0\0@\0\x07\0\x02\0\0\0\x041001",
        8,
        Reason::AceType,
    ),
    (
        b"\0\0\0\x01\0\0\0\x01\0\0\0\0\0\x0e\x06\xf3\0\0\0\x041001",
        12,
        Reason::FlagBits,
    ),
    (
        b"\0\0\0\x07\0\0\0\x01\0\0\0\x01\0\0\0\x02\0t\x038\0\0\0\x04\xc3\xa9@x",
        16,
        Reason::MaskBits,
    ),
    (
        b"\0\0\0\x04\0\0\0\x01\0\0\0\0\0\0\0*\0\x09\x01X\xff\xff\xff\xff1001",
        20,
        Reason::WhoLength,
    ),
    (
        b"\0\0\0\x01\0\0\0\x01\0\0\0\0\0\0\0C\0\x1b\x07\x1b\0\0\0\x0eAUTHENTICATED@\0\0",
        24,
        Reason::SpecialWho,
    ),
    (
        b"\0\0\0\x07\0\0\0\x01\0\0\0\0\0\0\0\0\0\x14\x01\x1e\0\0\0\x04\0\x01\0\x01",
        24,
        Reason::WhoControl,
    ),
    (
        b"\0\0\0\x02\0\0\0\x01\0\0\0\0\0\0\0@\0\x10\0J\0\0\0\x09EVERYONE@\0\0\x1a",
        33,
        Reason::Padding,
    ),
    (
        b"\0\0\0\0\0\0\0\0\0\0\0\0\0\0\0\0",
        8,
        Reason::TrailingBytes,
    ),
];

// Returns whether the value is refused with this fault.
fn is_refused(alloc: Global, bytes: &[u8], offset: u64, reason: ReadReason) -> bool {
    match read_acl41(alloc, bytes) {
        Ok(_) => false,
        Err(fault) => fault == ReadFault { offset, reason },
    }
}

// Returns whether the flags and the list are written as these bytes.
fn is_written_as(alloc: Global, flags: AclFlags, list: &Acl, bytes: &[u8]) -> bool {
    let mut sink = Counted::new(Vec::new(alloc));
    let answer = write_acl41(flags, &list.view(), &mut sink);
    answer.is_ok() && sink.into_inner().as_slice() == bytes
}

#[test]
fn the_first_fault_is_reported(rt: HostRuntime) {
    let alloc = rt.alloc();
    for (bytes, offset, reason) in FAULTS {
        assert!(rt;
            is_refused(alloc, bytes, offset, ReadReason::List(reason)),
            "{reason:?}"
        );
    }
    assert!(rt; is_refused(alloc, b"\0\xc9\0\x07\0\0\0\0", 0, ReadReason::AclFlagBits));
}

#[test]
fn a_value_is_read_or_memory_runs_out(rt: HostRuntime) {
    let alloc = rt.alloc();
    for (bytes, bits, _) in VALUES {
        match read_acl41(alloc, bytes) {
            Ok((flags, _)) => assert!(rt; flags.bits() == bits),
            Err(fault) => assert!(rt; fault.reason == ReadReason::List(Reason::Memory)),
        }
    }
}

mod ample {
    use super::*;

    #[test]
    fn a_value_is_read_and_written_again(rt: HostRuntime) -> Result<(), Fail> {
        let alloc = rt.alloc();
        for (bytes, bits, text) in VALUES {
            let (flags, list) = read_acl41(alloc, bytes)?;
            assert!(rt; flags.bits() == bits);
            assert!(rt; is_list_shown_as(alloc, &list, text)?);
            assert!(rt; is_written_as(alloc, flags, &list, bytes));
        }
        Ok(())
    }
}
