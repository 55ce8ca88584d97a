//! Exports, called as ordinary functions. What a list grants is by RFC 8881, section 6.2.1, and its bytes are by RFC
//! 4506, sections 4.2, 4.10 and 4.13. The normal form is this library's own: the list of these tests is in normal form.
//! The numbers of statuses and reasons are those of `aclck.h`.
mod ample;
mod prepared;

use crate::options::NARROW;
use crate::{
    RawAce, RawObject, RawQuestion, RawRequester, Refusal, aclck_check, aclck_next, aclck_normalize,
};
use std::alloc::Global;
use std::test::Fail;

const DONE: u32 = 0;

const REFUSED: u32 = 2;

const BAD_ARGUMENT: u32 = 3;

const MEMORY: u32 = 4;

const SHORT: u32 = 5;

// ALLOW READ_DATA bob.
const LIST: &[u8; 24] = b"\0\0\0\x01\0\0\0\0\0\0\0\0\0\0\0\x01\0\0\0\x03bob\0";

fn no_fault() -> Refusal {
    Refusal {
        offset: 0,
        line: 0,
        column: 0,
        reason: 0,
        list: 0,
        part: 0,
        tag: 0,
    }
}

// The status and the reported length of a call that writes the normal form of `LIST` into this buffer.
fn normalize_into(alloc: Global, out: &mut [u8]) -> (u32, usize) {
    let mut fault = no_fault();
    let mut needed = 9;
    let status = aclck_normalize(alloc, LIST, 0, out, &mut needed, &mut fault);
    (status, needed)
}

const OBJECT: RawObject<'static> = RawObject {
    owner: b"alice",
    group: b"staff",
};

// The status of `aclck_check`, and the answer that it leaves in place of a 7.
fn check(
    alloc: Global,
    acl: &[u8],
    user: &[u8],
    question: &RawQuestion,
    fault: &mut Refusal,
) -> (u32, u32) {
    let groups = [b"editors".as_slice(), b"staff".as_slice()];
    let requester = RawRequester {
        user,
        groups: &groups,
    };
    let mut granted = 7;
    let status = aclck_check(
        alloc,
        acl,
        &OBJECT,
        &requester,
        question,
        &mut granted,
        fault,
    );
    (status, granted)
}

#[test]
fn the_list_grants_bob_alone_and_what_has_no_meaning_is_refused(
    rt: HostRuntime,
) -> Result<(), Fail> {
    let read = RawQuestion {
        mask: 1,
        options: 0,
    };
    let exchanged = RawQuestion {
        mask: NARROW,
        options: 1,
    };
    let rows = [
        ("bob", read, (DONE, 1)),
        ("eve", read, (DONE, 0)),
        ("", read, (BAD_ARGUMENT, 0)),
        ("bob", exchanged, (BAD_ARGUMENT, 0)),
    ];
    let mut fault = no_fault();
    for (user, question, expected) in rows {
        let answer = check(rt.alloc(), LIST, user.as_bytes(), &question, &mut fault);
        assert_eq!(rt; answer, expected);
    }
    Ok(())
}

#[test]
fn a_list_that_is_cut_short_is_refused_at_its_end_and_grants_nothing(
    rt: HostRuntime,
) -> Result<(), Fail> {
    let mut fault = no_fault();
    let read = RawQuestion {
        mask: 1,
        options: 0,
    };
    let answer = check(rt.alloc(), &LIST[..23], b"bob", &read, &mut fault);
    assert_eq!(rt; answer, (REFUSED, 0));
    assert_eq!(rt; fault.offset, 23);
    assert_eq!(rt; fault.reason, 1);
    Ok(())
}

// An offset, the status there, and then the offset and the kind of the ACE.
static OFFSETS: [(usize, u32, usize, u32); 5] = [
    (0, DONE, 24, 0),
    (4, DONE, 24, 0),
    (24, DONE, 24, 2),
    (25, BAD_ARGUMENT, 25, 7),
    (20, REFUSED, 20, 7),
];

#[test]
fn the_aces_of_a_list_follow_one_another(rt: HostRuntime) {
    let mut fault = no_fault();
    for (from, status, to, kind) in OFFSETS {
        let mut offset = from;
        let mut ace = RawAce {
            kind: 7,
            flags: 7,
            mask: 7,
            who: b"",
        };
        let found = aclck_next(LIST, 0, &mut offset, &mut ace, &mut fault);
        assert!(rt; found == status);
        assert!(rt; offset == to);
        assert!(rt; ace.kind == kind);
        assert!(rt; kind != 0 || (ace.mask == 1 && ace.who == b"bob".as_slice()));
    }
    assert!(rt; fault.offset == 20);
    assert!(rt; fault.reason == 4);
}

#[test]
fn a_call_does_its_work_or_reports_that_memory_ran_out(rt: HostRuntime) {
    let mut out = [7u8; 24];
    let (status, needed) = normalize_into(rt.alloc(), &mut out);
    if status == MEMORY {
        assert!(rt; out == [7u8; 24]);
        assert!(rt; needed == 9);
    } else {
        assert!(rt; status == DONE);
        assert!(rt; out == *LIST);
    }
}
