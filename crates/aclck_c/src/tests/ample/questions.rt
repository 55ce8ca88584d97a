//! The questions of a list: docs/reference/lists.md, "Comparison", as XDR (RFC 4506, sections 4.10 and 4.13).
use crate::aclck_questions;
use crate::options::{DIRECTORY, NARROW};
use crate::tests::{BAD_ARGUMENT, DONE, LIST, REFUSED, SHORT, no_fault};

// Of nobody, and of bob, with strangers whose names are longer than his.
const ASKED: &[u8; 60] = b"\0\0\0\x02\
\0\0\0\x04oooo\0\0\0\x04gggg\0\0\0\x04uuuu\0\0\0\0\
\0\0\0\x04oooo\0\0\0\x04gggg\0\0\0\x03bob\0\0\0\0\0";

const UNTOUCHED: &[u8; 60] = &[7; 60];

// A list, the most questions, options, the status, and the number of the reason.
static CALLS: [(&[u8], u32, u32, u32, u32); 7] = [
    (LIST, 2, 0, DONE, 0),
    (LIST, u32::MAX, NARROW, DONE, 0),
    (LIST, 1, 0, REFUSED, 46),
    (LIST, 0, 0, REFUSED, 46),
    // Bytes that are no list are refused for that.
    (b"\0\0\0", 0, 0, REFUSED, 1),
    (b"\0\0\0", 0, DIRECTORY, BAD_ARGUMENT, 0),
    (LIST, 2, DIRECTORY, BAD_ARGUMENT, 0),
];

#[test]
fn bob_is_asked_about(rt: HostRuntime) {
    for (acl, most, options, expected, reason) in CALLS {
        let mut fault = no_fault();
        let mut needed = 9;
        let mut out = [7u8; 60];
        let status = aclck_questions(
            rt.alloc(),
            acl,
            most,
            options,
            &mut out,
            &mut needed,
            &mut fault,
        );
        assert!(rt; status == expected);
        assert!(rt; out == if status == DONE { *ASKED } else { *UNTOUCHED });
        assert!(rt; needed == if status == DONE { 60 } else { 9 });
        assert!(rt; fault.reason == reason);
    }
}

#[test]
fn a_buffer_too_short_for_the_questions_stays_as_it_was(rt: HostRuntime) {
    let mut fault = no_fault();
    let mut needed = 9;
    let mut out = [7u8; 59];
    let status = aclck_questions(rt.alloc(), LIST, 2, 0, &mut out, &mut needed, &mut fault);
    assert!(rt; status == SHORT);
    assert!(rt; needed == 60);
    assert!(rt; out == [7u8; 59]);
}
