//! Values of nfsacl41i, as the routines that rpcgen makes of Samba's description write and read them. The
//! texts and the offsets are those of the layout of RFC 4506; the reasons are this library's own.

use super::shown::is_list_shown_as;
use acl_forms::*;
use acl_nfs4::{Acl, Counted, Reason};
use std::alloc::Global;
use std::test::Fail;

// The value, its flags, and the text of its list.
static VALUES: [(&[u8], u32, &str); 7] = [
    (b"\0\x01\0\x01\0\0\0\0", 0x0001_0001, ""),
    (b"\0\0\0\x04\0\0\0\0", 4, ""),
    (
        b"\0\0\0\x02\0\0\0\x01\0\0\0\x01\0\0\0C\0\0\0\x01\0\x05\0\xa5\0\0\0\x03",
        2,
        "DENY FILE|DIR|GROUP READ_DATA|APPEND_DATA|EXECUTE|READ_ATTRIBUTES|DELETE|WRITE_ACL EVERYONE@\n",
    ),
    (
        b"\0\0\0\0\0\0\0\x01\0\0\0\x01\0\0\0@\0\0\0\0\0\x11\x01Q\xff\xff\xff\xfe",
        0,
        "DENY GROUP READ_DATA|WRITE_NAMED_ATTRS|DELETE_CHILD|WRITE_ATTRIBUTES|DELETE|SYNCHRONIZE 4294967294\n",
    ),
    (
        b"\0\0\0\x04\0\0\0\x01\0\0\0\0\0\0\0\0\0\0\0\0\0\x1a\x01h\0\0\x03\xe9",
        4,
        "ALLOW - READ_NAMED_ATTRS|EXECUTE|DELETE_CHILD|WRITE_ATTRIBUTES|READ_ACL|WRITE_OWNER|SYNCHRONIZE 1001\n",
    ),
    (
        b"\0\0\0\x02\0\0\0\x01\0\0\0\x01\0\0\0\0\0\0\0\x01\0\x19\0u\0\0\0\x01",
        2,
        "DENY - READ_DATA|APPEND_DATA|WRITE_NAMED_ATTRS|EXECUTE|DELETE_CHILD|DELETE|WRITE_OWNER|SYNCHRONIZE OWNER@\n",
    ),
    (
        b"\0\0\0\0\0\0\0\x01\0\0\0\x01\0\0\0\x12\0\0\0\x01\0\x08\0\xe9\0\0\0\x02",
        0,
        "DENY DIR|SUCCESS READ_DATA|READ_NAMED_ATTRS|EXECUTE|DELETE_CHILD|READ_ATTRIBUTES|WRITE_OWNER GROUP@\n",
    ),
];

// A value, and the place and the reason of its first fault.
static FAULTS: [(&[u8], u64, Reason); 8] = [
    (b"", 0, Reason::Truncated),
    (b"\0\0\0\x07\xff\xff\xff\xff", 4, Reason::TooManyAces),
    (
        b"\0\0\0\x07\0\0\0\x01\0\0\0\x03\0\0\x09\xbe\0\0\0\0\0\x06\0\xde\0\0\0\0",
        8,
        Reason::AuditOrAlarm,
    ),
    (
        b"\0\0\0\x02\0\0\0\x01\0\0\0\x1b\0\0\0\x01\0\0\0\0\0\x0d\x01\xc3\0\0\0\x01",
        8,
        Reason::AceType,
    ),
    (
        b"\0\0\0\x01\0\0\0\x01\0\0\0\0\xff\xff\xff\xff\0\0\0\x01\0\x09\x01\xbb\0\0\0\x03",
        12,
        Reason::FlagBits,
    ),
    (
        b"\0\0\0\x07\0\0\0\x03\0\0\0\0\0\0\0/\0\0\0\x01N\x0c\x01\x10\0\0\0\x03",
        20,
        Reason::MaskBits,
    ),
    (
        b"\0\0\0\x03\0\0\0\x01\0\0\0\0\0\0\0E\0\0\0\x01\0\x08\0\xcc\0\0\0\x0b",
        24,
        Reason::SpecialWho,
    ),
    (b"\0\0\0\x07\0\0\0\0\0\0", 8, Reason::TrailingBytes),
];

// Returns whether the value is refused with this fault.
fn is_refused(alloc: Global, bytes: &[u8], offset: u64, reason: ReadReason) -> bool {
    match read_acl41_ids(alloc, bytes) {
        Ok(_) => false,
        Err(fault) => fault == ReadFault { offset, reason },
    }
}

// Returns whether the flags and the list are written as these bytes.
fn is_written_as(alloc: Global, flags: AclFlags, list: &Acl, bytes: &[u8]) -> bool {
    let mut sink = Counted::new(Vec::new(alloc));
    let answer = write_acl41_ids(flags, &list.view(), &mut sink);
    answer.is_ok() && sink.into_inner().as_slice() == bytes
}

#[test]
fn the_first_fault_is_reported(rt: HostRuntime) {
    let alloc = rt.alloc();
    for (bytes, offset, reason) in FAULTS {
        assert!(rt;
            is_refused(alloc, bytes, offset, ReadReason::List(reason)),
            "{reason:?}"
        );
    }
    assert!(rt; is_refused(alloc, b"<\0\0\0\0\0\0\0", 0, ReadReason::AclFlagBits));
    assert!(rt;
        is_refused(
            alloc,
            b"\0\0\0\x07\0\0\0\x01\0\0\0\0\0\0\0\x01\0\0\0\x02",
            16,
            ReadReason::IflagBits
        )
    );
    assert!(rt;
        is_refused(
            alloc,
            b"\0\0\0\0\0\0\0\x01\0\0\0\x01\0\0\0U\0\0\0\0\0\x1f\0\xb1\xff\xff\xff\xff\0\0",
            24,
            ReadReason::Id
        )
    );
}

#[test]
fn a_value_is_read_or_memory_runs_out(rt: HostRuntime) {
    let alloc = rt.alloc();
    for (bytes, bits, _) in VALUES {
        match read_acl41_ids(alloc, bytes) {
            Ok((flags, _)) => assert!(rt; flags.bits() == bits),
            Err(fault) => assert!(rt; fault.reason == ReadReason::List(Reason::Memory)),
        }
    }
}

mod ample {
    use super::*;

    #[test]
    fn a_value_is_read_and_written_again(rt: HostRuntime) -> Result<(), Fail> {
        let alloc = rt.alloc();
        for (bytes, bits, text) in VALUES {
            let (flags, list) = read_acl41_ids(alloc, bytes)?;
            assert!(rt; flags.bits() == bits);
            assert!(rt; is_list_shown_as(alloc, &list, text)?);
            assert!(rt; is_written_as(alloc, flags, &list, bytes));
        }
        Ok(())
    }
}
