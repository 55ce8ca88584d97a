//! What a list keeps under a bound, by RFC 8881, section 6.2.1.
use crate::options::{DIRECTORY, NARROW};
use crate::tests::{BAD_ARGUMENT, DONE, LIST, REFUSED, SHORT, no_fault};
use crate::{RawBound, aclck_restricted, aclck_restricted_everywhere};

const NO_ACE: &[u8; 4] = b"\0\0\0\0";

// ALLOW bob of no right.
const NOTHING: &[u8; 24] = b"\0\0\0\x01\0\0\0\0\0\0\0\0\0\0\0\0\0\0\0\x03bob\0";

// ALLOW FILE|INHERITONLY bob, of READ_DATA and of no right.
const NEW_FILES: &[u8; 24] = b"\0\0\0\x01\0\0\0\0\0\0\0\x09\0\0\0\x01\0\0\0\x03bob\0";

const NO_NEW_FILES: &[u8; 24] = b"\0\0\0\x01\0\0\0\0\0\0\0\x09\0\0\0\0\0\0\0\x03bob\0";

const UNTOUCHED: &[u8; 24] = &[7; 24];

// A list, a bound, options, the status, what the buffer has, and the list of the fault.
static BOUNDS: [(&[u8], &[u8], u32, u32, &[u8; 24], u32); 7] = [
    (LIST, LIST, 0, DONE, LIST, 0),
    (LIST, NO_ACE, 0, DONE, NOTHING, 0),
    (LIST, NO_ACE, NARROW, DONE, NOTHING, 0),
    (LIST, NOTHING, NARROW, DONE, NOTHING, 0),
    (LIST, b"\0\0\0", 0, REFUSED, UNTOUCHED, 1),
    (b"\0\0\0", LIST, 0, REFUSED, UNTOUCHED, 0),
    (LIST, LIST, DIRECTORY, BAD_ARGUMENT, UNTOUCHED, 0),
];

#[test]
fn bob_keeps_what_the_bound_grants_him(rt: HostRuntime) {
    for (acl, bound, options, expected, bytes, which) in BOUNDS {
        let mut fault = no_fault();
        let mut needed = 9;
        let mut out = [7u8; 24];
        let status = aclck_restricted(
            rt.alloc(),
            acl,
            &RawBound { bytes: bound },
            options,
            &mut out,
            &mut needed,
            &mut fault,
        );
        assert!(rt; status == expected);
        assert!(rt; out == *bytes);
        assert!(rt; needed == if status == DONE { 24 } else { 9 });
        assert!(rt; fault.list == which);
        assert!(rt; (fault.reason == 1) == (status == REFUSED));
    }
}

// The same of what new files keep too.
static BOUNDS_OF_NEW_FILES: [(&[u8], &[u8], u32, u32, &[u8; 24], u32); 7] = [
    (NEW_FILES, NEW_FILES, 0, DONE, NEW_FILES, 0),
    (NEW_FILES, LIST, 0, DONE, NO_NEW_FILES, 0),
    (NEW_FILES, NO_NEW_FILES, NARROW, DONE, NO_NEW_FILES, 0),
    (LIST, NEW_FILES, NARROW, DONE, NOTHING, 0),
    (LIST, b"\0\0\0", 0, REFUSED, UNTOUCHED, 1),
    (b"\0\0\0", LIST, 0, REFUSED, UNTOUCHED, 0),
    (LIST, LIST, DIRECTORY, BAD_ARGUMENT, UNTOUCHED, 0),
];

#[test]
fn bob_keeps_what_the_bound_grants_him_on_new_files(rt: HostRuntime) {
    for (acl, bound, options, expected, bytes, which) in BOUNDS_OF_NEW_FILES {
        let mut fault = no_fault();
        let mut needed = 9;
        let mut out = [7u8; 24];
        let status = aclck_restricted_everywhere(
            rt.alloc(),
            acl,
            &RawBound { bytes: bound },
            options,
            &mut out,
            &mut needed,
            &mut fault,
        );
        assert!(rt; status == expected);
        assert!(rt; out == *bytes);
        assert!(rt; needed == if status == DONE { 24 } else { 9 });
        assert!(rt; fault.list == which);
        assert!(rt; (fault.reason == 1) == (status == REFUSED));
    }
}

#[test]
fn a_buffer_too_short_for_what_is_kept_stays_as_it_was(rt: HostRuntime) {
    let mut fault = no_fault();
    let mut needed = 9;
    let mut out = [7u8; 23];
    let status = aclck_restricted(
        rt.alloc(),
        LIST,
        &RawBound { bytes: NO_ACE },
        0,
        &mut out,
        &mut needed,
        &mut fault,
    );
    assert!(rt; status == SHORT);
    assert!(rt; needed == 24);
    assert!(rt; out == [7u8; 23]);
}
