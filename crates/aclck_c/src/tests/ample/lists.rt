//! Calls that make bytes of a list. The lists are written by hand by RFC 8881, sections 6.2.1.4.1, 6.4.1.1 and 6.4.3.2,
//! and RFC 4506.
use crate::options::{DIRECTORY, MARK_INHERITED, NARROW};
use crate::tests::prepared::PREPARED;
use crate::tests::{BAD_ARGUMENT, DONE, LIST, REFUSED, SHORT, no_fault};
use crate::{
    RawObject, RawSuffix, aclck_child, aclck_chmod, aclck_prepare, aclck_resolved,
    aclck_with_groups,
};
use std::alloc::Global;

// The status, the number of bytes and the offset of the fault.
fn prepare(alloc: Global, acl: &[u8], options: u32, out: &mut [u8]) -> (u32, usize, u64) {
    let mut fault = no_fault();
    let mut needed = 0;
    let status = aclck_prepare(alloc, acl, options, out, &mut needed, &mut fault);
    (status, needed, fault.offset)
}

#[test]
fn a_list_is_prepared(rt: HostRuntime) {
    let mut out = [0u8; 19];
    let answer = prepare(rt.alloc(), LIST, NARROW, &mut out);
    assert!(rt; answer == (DONE, 19, 0));
    assert!(rt; out == *PREPARED);
    let answer = prepare(rt.alloc(), LIST, 0, &mut [0u8; 18]);
    assert!(rt; answer == (SHORT, 19, 0));
    let answer = prepare(rt.alloc(), &LIST[..23], 0, &mut out);
    assert!(rt; answer == (REFUSED, 0, 23));
}

// ALLOW FILE|DIRECTORY READ_DATA bob.
const PASSED_ON: &[u8; 24] = b"\0\0\0\x01\0\0\0\0\0\0\0\x03\0\0\0\x01\0\0\0\x03bob\0";

// Options, the status, and the flags of the ACE in place of a 7.
static CHILDREN: [(u32, u32, u8); 6] = [
    (0, DONE, 0),
    (MARK_INHERITED, DONE, 0x80),
    (DIRECTORY, DONE, 3),
    (DIRECTORY | MARK_INHERITED, DONE, 0x83),
    (NARROW | DIRECTORY, DONE, 3),
    (NARROW | MARK_INHERITED, BAD_ARGUMENT, 7),
];

#[test]
fn what_is_inherited_is_marked_if_the_options_say_so(rt: HostRuntime) {
    for (options, expected, flags) in CHILDREN {
        let mut fault = no_fault();
        let mut needed = 0;
        let mut out = [7u8; 24];
        let status = aclck_child(
            rt.alloc(),
            PASSED_ON,
            options,
            &mut out,
            &mut needed,
            &mut fault,
        );
        assert!(rt; status == expected);
        assert!(rt; out[11] == flags);
    }
}

// The list of bob with the mode 0600: ALLOW READ_DATA|WRITE_DATA|APPEND_DATA OWNER@, DENY EXECUTE OWNER@, and DENY of
// all four GROUP@. Nothing is left for bob.
const PRIVATE: &[u8; 76] = b"\0\0\0\x03\
\0\0\0\0\0\0\0\0\0\0\0\x07\0\0\0\x06OWNER@\0\0\
\0\0\0\x01\0\0\0\0\0\0\0\x20\0\0\0\x06OWNER@\0\0\
\0\0\0\x01\0\0\0\0\0\0\0\x27\0\0\0\x06GROUP@\0\0";

// A mode, options, the status and the number of bytes.
static MODES: [(u32, u32, u32, usize); 4] = [
    (0o600, 0, DONE, 76),
    (0o600, NARROW, DONE, 76),
    (0o1000, 0, BAD_ARGUMENT, 0),
    (0o600, DIRECTORY, BAD_ARGUMENT, 0),
];

#[test]
fn a_list_gets_a_mode(rt: HostRuntime) {
    for (mode, options, expected, size) in MODES {
        let mut fault = no_fault();
        let mut needed = 0;
        let mut out = [7u8; 76];
        let status = aclck_chmod(
            rt.alloc(),
            LIST,
            mode,
            options,
            &mut out,
            &mut needed,
            &mut fault,
        );
        assert!(rt; status == expected);
        assert!(rt; needed == size);
        assert!(rt; (out == *PRIVATE) == (expected == DONE));
    }
}

// ALLOW READ_DATA OWNER@ and DENY EXECUTE GROUP@, and the same with the owner bob and the owning group staff.
const UNNAMED: &[u8; 52] = b"\0\0\0\x02\
\0\0\0\0\0\0\0\0\0\0\0\x01\0\0\0\x06OWNER@\0\0\
\0\0\0\x01\0\0\0\0\0\0\0\x20\0\0\0\x06GROUP@\0\0";

const NAMED: &[u8; 48] = b"\0\0\0\x02\
\0\0\0\0\0\0\0\0\0\0\0\x01\0\0\0\x03bob\0\
\0\0\0\x01\0\0\0\x40\0\0\0\x20\0\0\0\x05staff\0\0\0";

// The owner, the owning group, options, the status and the place of the fault.
static OBJECTS: [(&[u8], &[u8], u32, u32, u64); 5] = [
    (b"bob", b"staff", 0, DONE, 0),
    (b"bob", b"staff", DIRECTORY, BAD_ARGUMENT, 0),
    (b"", b"staff", 0, BAD_ARGUMENT, 0),
    (b"EVERYONE@", b"staff", 0, REFUSED, 0),
    (b"bob", b"x@", 0, REFUSED, 1),
];

#[test]
fn the_owner_and_the_owning_group_are_named(rt: HostRuntime) {
    for (owner, group, options, expected, place) in OBJECTS {
        let mut fault = no_fault();
        let mut needed = 0;
        let mut out = [7u8; 48];
        let object = RawObject { owner, group };
        let status = aclck_resolved(
            rt.alloc(),
            UNNAMED,
            &object,
            options,
            &mut out,
            &mut needed,
            &mut fault,
        );
        assert!(rt; status == expected);
        assert!(rt; (out == *NAMED) == (expected == DONE));
        assert!(rt; fault.offset == place);
    }
}

// ALLOW READ_DATA NOW@ after an ALARM ACE of everybody, and what stays with the suffix `?`.
const SPECIAL: &[u8; 52] = b"\0\0\0\x02\
\0\0\0\x03\0\0\0\0\0\0\0\x01\0\0\0\x09EVERYONE@\0\0\0\
\0\0\0\0\0\0\0\0\0\0\0\x01\0\0\0\x04NOW@";

// `SPECIAL` without its last byte.
const CUT: &[u8; 51] = b"\0\0\0\x02\
\0\0\0\x03\0\0\0\0\0\0\0\x01\0\0\0\x09EVERYONE@\0\0\0\
\0\0\0\0\0\0\0\0\0\0\0\x01\0\0\0\x04NOW";

const GROUPED: &[u8; 28] = b"\0\0\0\x01\0\0\0\0\0\0\0\x40\0\0\0\x01\0\0\0\x05NOW@?\0\0\0";

// A list, a suffix, options, the status and the offset of the fault.
static SUFFIXES: [(&[u8], &[u8], u32, u32, u64); 5] = [
    (SPECIAL, b"?", 0, DONE, 0),
    (SPECIAL, b"?", DIRECTORY, BAD_ARGUMENT, 0),
    (SPECIAL, b"@", 0, REFUSED, 0),
    (CUT, b"?", 0, REFUSED, 48),
    (GROUPED, b"", 0, DONE, 0),
];

#[test]
fn a_group_stands_for_a_special_identifier(rt: HostRuntime) {
    for (acl, suffix, options, expected, offset) in SUFFIXES {
        let mut fault = no_fault();
        let mut needed = 0;
        let mut out = [7u8; 28];
        let suffix = RawSuffix { bytes: suffix };
        let status = aclck_with_groups(
            rt.alloc(),
            acl,
            &suffix,
            options,
            &mut out,
            &mut needed,
            &mut fault,
        );
        assert!(rt; status == expected);
        assert!(rt; (out == *GROUPED) == (expected == DONE));
        assert!(rt; fault.offset == offset);
    }
}
