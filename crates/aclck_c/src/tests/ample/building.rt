//! Lists from arrays of ACEs, and questions to lists that name special identifiers which nobody knows. Bytes and
//! answers are by RFC 8881, section 6.2.1, and RFC 4506; the numbers of reasons are those of `aclck.h`.
use crate::options::{DIRECTORY, NARROW};
use crate::tests::{BAD_ARGUMENT, DONE, LIST, OBJECT, REFUSED, no_fault};
use crate::{RawAce, RawPossible, RawQuestion, RawRequester, aclck_build, aclck_decide_unknown};
use std::alloc::Global;

const READ: RawAce<'static> = RawAce {
    kind: 0,
    flags: 0,
    mask: 1,
    who: b"bob",
};

// The status of a call that builds a list, and the reason and the place of its fault. A list that is refused writes no
// byte.
fn refused(alloc: Global, aces: &[RawAce<'_>], options: u32) -> Option<(u32, u32, u64)> {
    let mut fault = no_fault();
    let mut needed = 0;
    let mut out = [7u8; 24];
    let status = aclck_build(alloc, aces, options, &mut out, &mut needed, &mut fault);
    (out == [7u8; 24]).then_some((status, fault.reason, fault.offset))
}

#[test]
fn an_array_of_aces_is_a_list_or_the_first_bad_ace_is_refused(rt: HostRuntime) {
    let audit = RawAce { kind: 2, ..READ };
    let no_kind = RawAce { kind: 4, ..READ };
    let no_flags = RawAce {
        flags: 0x100,
        ..READ
    };
    let inherited = RawAce {
        flags: 0x80,
        ..READ
    };
    let no_mask = RawAce {
        mask: 0x800,
        ..READ
    };
    let nobody = RawAce { who: b"", ..READ };
    let special = RawAce {
        who: b"NOW@",
        ..READ
    };
    let rows = [
        ([READ, audit, no_kind], 0, (REFUSED, 3, 1)),
        ([no_kind, READ, audit], 0, (REFUSED, 4, 0)),
        ([READ, READ, no_flags], 0, (REFUSED, 5, 2)),
        ([READ, inherited, READ], NARROW, (REFUSED, 5, 1)),
        ([no_mask, READ, READ], 0, (REFUSED, 6, 0)),
        ([READ, nobody, audit], 0, (REFUSED, 8, 1)),
        ([READ, READ, special], 0, (REFUSED, 11, 2)),
        ([READ, READ, READ], DIRECTORY, (BAD_ARGUMENT, 0, 0)),
    ];
    for (aces, options, expected) in rows {
        assert!(rt; refused(rt.alloc(), &aces, options) == Some(expected));
    }
}

#[test]
fn the_bytes_of_a_list_are_built(rt: HostRuntime) {
    let mut fault = no_fault();
    let mut needed = 0;
    let mut out = [7u8; 24];
    let status = aclck_build(
        rt.alloc(),
        &[READ],
        NARROW,
        &mut out,
        &mut needed,
        &mut fault,
    );
    assert!(rt; status == DONE);
    assert!(rt; out == *LIST);
}

// ALLOW READ_DATA NOW@, DENY WRITE_DATA NOW@, ALLOW WRITE_DATA EVERYONE@, ALARM READ_DATA bob.
const UNKNOWN: &[u8; 92] = b"\0\0\0\x04\
\0\0\0\0\0\0\0\0\0\0\0\x01\0\0\0\x04NOW@\
\0\0\0\x01\0\0\0\0\0\0\0\x02\0\0\0\x04NOW@\
\0\0\0\0\0\0\0\0\0\0\0\x02\0\0\0\x09EVERYONE@\0\0\0\
\0\0\0\x03\0\0\0\0\0\0\0\x01\0\0\0\x03bob\0";

// A mask, the status, and the answers to it. Read depends on NOW@ and so does write, but no match of NOW@ grants both.
static ANSWERS: [(u32, u32, (u32, u32, u32, u32, u32)); 6] = [
    (1, DONE, (0, 0, 1, 1, 1)),
    (2, DONE, (0, 0, 2, 1, 1)),
    (3, DONE, (0, 0, 3, 0, 1)),
    (4, DONE, (0, 0, 0, 0, 1)),
    (0, DONE, (0, 0, 0, 2, 1)),
    (0x800, BAD_ARGUMENT, (0, 0, 0, 0, 0)),
];

#[test]
fn two_rights_may_each_be_granted_and_never_both(rt: HostRuntime) {
    for (mask, expected, answers) in ANSWERS {
        let mut fault = no_fault();
        let mut found = RawPossible {
            allowed: 7,
            denied: 7,
            unknown: 7,
            request: 7,
            left_out: 7,
        };
        let bob = RawRequester {
            user: b"bob",
            groups: &[],
        };
        let question = RawQuestion { mask, options: 0 };
        let status = aclck_decide_unknown(
            rt.alloc(),
            UNKNOWN,
            &OBJECT,
            &bob,
            &question,
            &mut found,
            &mut fault,
        );
        let found = (
            found.allowed,
            found.denied,
            found.unknown,
            found.request,
            found.left_out,
        );
        assert!(rt; status == expected);
        assert!(rt; found == answers);
    }
}
