//! Calls that take memory, with enough of it: they do what they promise, and do not report that memory ran out. What a
//! text grants is by acl(5), "ACCESS CHECK ALGORITHM", and the numbers of statuses and reasons are those of `aclck.h`.
mod archives;
mod building;
mod converting;
mod exceeding;
mod forms;
mod implying;
mod lists;
mod questions;
mod restricting;

use super::{BAD_ARGUMENT, DONE, LIST, REFUSED, SHORT, no_fault, normalize_into};
use crate::{
    RawDecided, RawIdObject, RawIdRequester, RawName, RawNames, RawPosixQuestion, RawPosixText,
    RawQuestion, Refusal, aclck_decide_ids, aclck_posix_check, aclck_prepare_ids,
};
use std::alloc::Global;

#[test]
fn a_short_buffer_stays_as_it_was(rt: HostRuntime) {
    let mut out = [0u8; 30];
    let answer = normalize_into(rt.alloc(), &mut out);
    assert!(rt; answer == (DONE, 24));
    assert!(rt; out.starts_with(LIST));
    let mut short = [7u8; 3];
    let answer = normalize_into(rt.alloc(), &mut short);
    assert!(rt; answer == (SHORT, 24));
    assert!(rt; short == [7, 7, 7]);
}

const BOB: RawName<'static> = RawName {
    name: b"bob",
    id: 7,
    is_group: 0,
};

const NO_HALF: RawName<'static> = RawName {
    name: b"bob",
    id: 7,
    is_group: 2,
};

// The status of `aclck_posix_check` for a user who wants to read, and the answer that it leaves in place of a 7.
fn may_read(alloc: Global, names: &[RawName<'_>], user: u32, fault: &mut Refusal) -> (u32, u32) {
    let text = RawPosixText {
        text: b"user::rw-,user:bob:r--,group::---,mask::r--,other::---",
        names,
    };
    let question = RawPosixQuestion {
        owner: 1,
        group: 1,
        user,
        want: 4,
        groups: &[],
    };
    let mut granted = 7;
    let status = aclck_posix_check(alloc, &text, &question, &mut granted, fault);
    (status, granted)
}

// Names, a user, and the status and the answer.
static TABLES: [(&[RawName<'static>], u32, (u32, u32)); 5] = [
    (&[BOB], 7, (DONE, 1)),
    (&[BOB], 8, (DONE, 0)),
    (&[BOB, BOB], 7, (BAD_ARGUMENT, 0)),
    (&[NO_HALF], 7, (BAD_ARGUMENT, 0)),
    (&[], 7, (REFUSED, 0)),
];

#[test]
fn a_text_may_use_the_names_of_a_table(rt: HostRuntime) {
    let mut fault = no_fault();
    for (names, user, expected) in TABLES {
        let answer = may_read(rt.alloc(), names, user, &mut fault);
        assert!(rt; answer == expected);
    }
    assert!(rt; fault.reason == 22);
    assert!(rt; fault.column == 16);
}

// The status of `aclck_prepare_ids` for `LIST` with these names, and the number of its bytes.
fn prepare(
    alloc: Global,
    names: &[RawName<'_>],
    out: &mut [u8],
    fault: &mut Refusal,
) -> (u32, usize) {
    let mut needed = 9;
    let names = RawNames { names };
    let status = aclck_prepare_ids(alloc, LIST, &names, 0, out, &mut needed, fault);
    (status, needed)
}

// The status of `aclck_decide_ids` for READ_DATA, and the rights that are allowed and denied, in place of 7 and 7.
fn decide(prepared: &[u8], user: u32, groups: &[u32], options: u32) -> (u32, u32, u32) {
    let object = RawIdObject { owner: 1, group: 1 };
    let requester = RawIdRequester { user, groups };
    let question = RawQuestion { mask: 1, options };
    let mut decided = RawDecided {
        allowed: 7,
        denied: 7,
    };
    let status = aclck_decide_ids(prepared, &object, &requester, &question, &mut decided);
    (status, decided.allowed, decided.denied)
}

// Names, and the status and the number of bytes with room for sixteen.
static NAMES: [(&[RawName<'static>], (u32, usize)); 3] = [
    (&[BOB, BOB], (BAD_ARGUMENT, 9)),
    (&[], (REFUSED, 9)),
    (&[BOB], (DONE, 16)),
];

// A user, the groups of the user, options, and the status and the rights.
static QUESTIONS: [(u32, &[u32], u32, (u32, u32, u32)); 5] = [
    (7, &[1, 2], 0, (DONE, 1, 0)),
    (8, &[1, 7], 0, (DONE, 0, 0)),
    (7, &[2, 1], 0, (BAD_ARGUMENT, 0, 0)),
    (7, &[1, 1], 0, (BAD_ARGUMENT, 0, 0)),
    (7, &[1, 2], 1, (BAD_ARGUMENT, 0, 0)),
];

#[test]
fn a_list_is_asked_by_ids(rt: HostRuntime) {
    let mut out = [0u8; 16];
    let mut fault = no_fault();
    for (names, expected) in NAMES {
        let answer = prepare(rt.alloc(), names, &mut out, &mut fault);
        assert!(rt; answer == expected);
    }
    assert!(rt; fault.reason == 22);
    assert!(rt; fault.offset == 0);
    for (user, groups, options, expected) in QUESTIONS {
        let answer = decide(&out, user, groups, options);
        assert!(rt; answer == expected);
    }
}

#[test]
fn too_few_bytes_are_no_prepared_list(rt: HostRuntime) {
    let mut short = [0u8; 15];
    let answer = prepare(rt.alloc(), &[BOB], &mut short, &mut no_fault());
    assert!(rt; answer == (SHORT, 16));
    let answer = decide(&short, 7, &[], 0);
    assert!(rt; answer == (BAD_ARGUMENT, 0, 0));
}
