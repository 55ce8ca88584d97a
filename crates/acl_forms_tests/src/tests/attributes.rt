//! Values of `system.posix_acl_access` and `system.posix_acl_default` that Linux 6.18 accepted or refused on ext4, with
//! what getfacl 2.3.1 printed of the file. The places and the reasons are this library's own.

use super::shown::is_acl_shown_as;
use acl_forms::*;
use acl_nfs4::{Counted, Reason};
use acl_posix::PosixAcl;
use std::alloc::{AllocError, Global};
use std::test::Fail;

// A value that Linux accepts, and what getfacl -n prints.
static VALUES: [(&[u8], &str); 4] = [
    (
        b"\x02\0\0\0\x01\0\x06\0\xff\xff\xff\xff\x04\0\x01\0\xff\xff\xff\xff\x20\0\0\0\xff\xff\xff\xff",
        "user::rw-\ngroup::--x\nother::---\n",
    ),
    (
        b"\x02\0\0\0\x01\0\0\0\xff\xff\xff\xff\x02\0\x05\0\xe9\x03\0\0\x02\0\x07\0\0\0\0\x80\
          \x04\0\0\0\xff\xff\xff\xff\x08\0\0\0\x64\0\0\0\x10\0\x05\0\xff\xff\xff\xff\
          \x20\0\x07\0\xff\xff\xff\xff",
        "user::---\nuser:1001:r-x\nuser:2147483648:rwx\ngroup::---\ngroup:100:---\nmask::r-x\nother::rwx\n",
    ),
    (
        b"\x02\0\0\0\x01\0\x07\0\xff\xff\xff\xff\x04\0\x04\0\xff\xff\xff\xff\x08\0\x06\0\x03\0\0\0\
          \x08\0\x05\0\x07\0\0\0\x08\0\x04\0\xfe\xff\xff\xff\x10\0\x02\0\xff\xff\xff\xff\
          \x20\0\x07\0\xff\xff\xff\xff",
        "user::rwx\ngroup::r--\ngroup:3:rw-\ngroup:7:r-x\ngroup:4294967294:r--\nmask::-w-\nother::rwx\n",
    ),
    (
        b"\x02\0\0\0\x01\0\0\0\xff\xff\xff\xff\x02\0\x03\0\xe8\x03\0\0\x02\0\0\0\xe9\x03\0\0\
          \x02\0\0\0\xfe\xff\xff\xff\x04\0\x07\0\xff\xff\xff\xff\x08\0\x05\0\x64\0\0\0\
          \x10\0\x04\0\xff\xff\xff\xff\x20\0\x03\0\xff\xff\xff\xff",
        "user::---\nuser:1000:-wx\nuser:1001:---\nuser:4294967294:---\ngroup::rwx\ngroup:100:r-x\nmask::r--\nother::-wx\n",
    ),
];

// A value that Linux refuses, and the message of its first fault.
static FAULTS: [(&[u8], &str); 17] = [
    (b"", "Truncated at byte 0"),
    (b"\x02", "Truncated at byte 0"),
    (
        b"\0\0\0\x02\x01\0\x06\0\xff\xff\xff\xff\x04\0\x01\0\xff\xff\xff\xff\x20\0\x04\0\xff\xff\xff\xff",
        "Version at byte 0",
    ),
    (b"\x02\0\0\0\x01\0\x05\0\xff\xff", "Truncated at byte 4"),
    (
        b"\x02\0\0\0\x01\0\x04\0\xff\xff\xff\xff\x02\0\0\0\x05",
        "Truncated at byte 12",
    ),
    (
        b"\x02\0\0\0\x40\0\x02\0\xff\xff\xff\xff\x04\0\0\0\xff\xff\xff\xff\x10\0\x05\0\xff\xff\xff\xff\
          \x20\0\x03\0\xff\xff\xff\xff",
        "Tag at byte 4",
    ),
    (
        b"\x02\0\0\0\x01\0\x01\0\xff\xff\xff\xff\x02\0\0\0\0\0\0\x80\x04\0\x02\0\xff\xff\xff\xff\
          \x10\0\x01\0\xff\xff\xff\xff\x06\0\x05\0\xff\xff\xff\xff",
        "Tag at byte 36",
    ),
    (
        b"\x02\0\0\0\x01\0\x07\0\xff\xff\xff\xff\0\x10\x01\0\xfe\xff\0\0\x04\0\x05\0\xff\xff\xff\xff\
          \x10\0\0\0\xff\xff\xff\xff\x20\0\x06\0\xff\xff\xff\xff",
        "Tag at byte 12",
    ),
    (
        b"\x02\0\0\0\x01\0\x04\x01\xff\xff\xff\xff\x02\0\x04\0\0\0\0\0\x04\0\0\0\xff\xff\xff\xff\
          \x10\0\x06\0\xff\xff\xff\xff\x20\0\x06\0\xff\xff\xff\xff",
        "Permission at byte 6",
    ),
    (
        b"\x02\0\0\0\x01\0\x02\0\xff\xff\xff\xff\x02\0\x03\0\xfe\xff\xff\xff\x04\0\x02\0\xff\xff\xff\xff\
          \x10\0\x03\0\xff\xff\xff\xff\x20\0\x0a\0\xff\xff\xff\xff",
        "Permission at byte 38",
    ),
    (
        b"\x02\0\0\0\x01\0\x02\0\xff\xff\xff\xff\x02\0\0\0\xff\xff\xff\xff\x02\0\x07\0\xe9\x03\0\0\
          \x04\0\x04\0\xff\xff\xff\xff\x10\0\0\0\xff\xff\xff\xff\x20\0\x03\0\xff\xff\xff\xff",
        "Id at byte 16",
    ),
    (
        b"\x02\0\0\0\x10\0\x07\0\xff\xff\xff\xff\x01\0\x02\0\xff\xff\xff\xff\x04\0\x06\0\xff\xff\xff\xff\
          \x20\0\x06\0\xff\xff\xff\xff",
        "Order at byte 12",
    ),
    (
        b"\x02\0\0\0\x01\0\x04\0\xff\xff\xff\xff\x04\0\x06\0\xff\xff\xff\xff\x20\0\x04\0\xff\xff\xff\xff\
          \x20\0\x04\0\xff\xff\xff\xff",
        "Multi at byte 28",
    ),
    (
        b"\x02\0\0\0\x04\0\x02\0\xff\xff\xff\xff\x20\0\x02\0\xff\xff\xff\xff",
        "Miss USER_OBJ at byte 20",
    ),
    (
        b"\x02\0\0\0\x01\0\x03\0\xff\xff\xff\xff\x20\0\x02\0\xff\xff\xff\xff",
        "Miss GROUP_OBJ at byte 20",
    ),
    (
        b"\x02\0\0\0\x01\0\0\0\xff\xff\xff\xff\x04\0\x02\0\xff\xff\xff\xff\x08\0\x06\0\x07\0\0\0\
          \x08\0\x01\0\x64\0\0\0\x10\0\x05\0\xff\xff\xff\xff",
        "Miss OTHER at byte 44",
    ),
    (
        b"\x02\0\0\0\x01\0\x07\0\xff\xff\xff\xff\x02\0\x01\0\xfe\xff\0\0\x04\0\x07\0\xff\xff\xff\xff\
          \x20\0\x04\0\xff\xff\xff\xff",
        "Miss MASK at byte 36",
    ),
];

// A value that Linux accepts, in which it repairs or keeps what libacl never writes, and the message of its fault.
static NOT_CANONICAL: [(&[u8], &str); 3] = [
    (b"\x02\0\0\0", "Miss USER_OBJ at byte 4"),
    (
        b"\x02\0\0\0\x01\0\x01\0\xff\xff\xff\xff\x04\0\x05\0\xff\xff\xff\xff\x10\0\0\0\x07\0\0\0\
          \x20\0\x02\0\xff\xff\xff\xff",
        "Qualifier at byte 24",
    ),
    (
        b"\x02\0\0\0\x01\0\x01\0\xff\xff\xff\xff\x02\0\x04\0\x05\0\0\0\x02\0\x06\0\x05\0\0\0\
          \x04\0\x03\0\xff\xff\xff\xff\x08\0\x04\0\x07\0\0\0\x08\0\0\0\xfe\xff\xff\xff\
          \x10\0\x07\0\xff\xff\xff\xff\x20\0\0\0\xff\xff\xff\xff",
        "Duplicate at byte 20",
    ),
];

// A value with ids in another order, which Linux accepts and stores as it is, and what getfacl -n prints.
static UNSORTED: [(&[u8], &str); 2] = [
    (
        b"\x02\0\0\0\x01\0\x02\0\xff\xff\xff\xff\x02\0\x04\0\x09\0\0\0\x02\0\x06\0\x08\0\0\0\
          \x04\0\x05\0\xff\xff\xff\xff\x10\0\x02\0\xff\xff\xff\xff\x20\0\x03\0\xff\xff\xff\xff",
        "user::-w-\nuser:8:rw-\nuser:9:r--\ngroup::r-x\nmask::-w-\nother::-wx\n",
    ),
    (
        b"\x02\0\0\0\x01\0\x05\0\xff\xff\xff\xff\x02\0\x04\0\x09\0\0\0\x02\0\x06\0\x08\0\0\0\
          \x02\0\x06\0\0\0\0\x80\x04\0\x07\0\xff\xff\xff\xff\x10\0\x06\0\xff\xff\xff\xff\
          \x20\0\0\0\xff\xff\xff\xff",
        "user::r-x\nuser:8:rw-\nuser:9:r--\nuser:2147483648:rw-\ngroup::rwx\nmask::rw-\nother::---\n",
    ),
];

// A value with two faults, and the message of the first: the place decides, and at one place Order.
static TWO_FAULTS: [(&[u8], &str); 2] = [
    (
        b"\x02\0\0\0\x01\0\x04\0\xff\xff\xff\xff\x01\0\x06\0\xff\xff\xff\xff\x20\0\x04\0\xff\xff\xff\xff\
          \x04\0\x04\0\xff\xff\xff\xff",
        "Multi at byte 12",
    ),
    (
        b"\x02\0\0\0\x01\0\x04\0\xff\xff\xff\xff\x04\0\x06\0\xff\xff\xff\xff\x01\0\x04\0\xff\xff\xff\xff\
          \x20\0\x04\0\xff\xff\xff\xff",
        "Order at byte 20",
    ),
];

// Returns whether the value is refused with this message.
fn is_refused(alloc: Global, bytes: &[u8], message: &str) -> Result<bool, AllocError> {
    match read_attribute(alloc, bytes) {
        Ok(_) => Ok(false),
        Err(fault) => Ok(fault.to_string(alloc)?.as_str() == message),
    }
}

// Returns whether the ACL is written as these bytes.
fn is_written_as(alloc: Global, acl: &PosixAcl, bytes: &[u8]) -> bool {
    let mut sink = Counted::new(Vec::new(alloc));
    let answer = write_attribute(acl, &mut sink);
    answer.is_ok() && sink.into_inner().as_slice() == bytes
}

#[test]
fn a_value_is_read_or_memory_runs_out(rt: HostRuntime) {
    let alloc = rt.alloc();
    for (bytes, _) in VALUES {
        match read_attribute(alloc, bytes) {
            Ok(acl) => assert!(rt; acl.entries().len() == bytes.len() / 8),
            Err(fault) => assert!(rt; fault.reason == ReadReason::List(Reason::Memory)),
        }
    }
}

mod ample {
    use super::*;

    #[test]
    fn a_value_is_read_and_written_again(rt: HostRuntime) -> Result<(), Fail> {
        let alloc = rt.alloc();
        for (bytes, text) in VALUES {
            let acl = read_attribute(alloc, bytes)?;
            assert!(rt; is_acl_shown_as(alloc, &acl, text)?, "{text}");
            assert!(rt; is_written_as(alloc, &acl, bytes), "{text}");
        }
        Ok(())
    }

    #[test]
    fn ids_in_any_order_are_sorted(rt: HostRuntime) -> Result<(), Fail> {
        let alloc = rt.alloc();
        for (bytes, text) in UNSORTED {
            let acl = read_attribute(alloc, bytes)?;
            assert!(rt; is_acl_shown_as(alloc, &acl, text)?, "{text}");
        }
        Ok(())
    }

    #[test]
    fn the_first_fault_is_reported(rt: HostRuntime) -> Result<(), Fail> {
        let alloc = rt.alloc();
        for (bytes, message) in FAULTS {
            assert!(rt; is_refused(alloc, bytes, message)?, "{message}");
        }
        for (bytes, message) in NOT_CANONICAL {
            assert!(rt; is_refused(alloc, bytes, message)?, "{message}");
        }
        for (bytes, message) in TWO_FAULTS {
            assert!(rt; is_refused(alloc, bytes, message)?, "{message}");
        }
        Ok(())
    }
}
