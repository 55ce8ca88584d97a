//! Which lists of entries are valid (acl(5), "VALID ACLs"), and the fault of each that is not, which is this library's
//! own (docs/reference/lists.md, "POSIX ACLs").

use super::harness::Who::{Amy, Bob, Group, Guests, Mask, Other, Owner, Staff};
use super::harness::{DEFAULT, MASKED, Memory, NO_OWNER, Rows, SHARED, TWO_GROUPS};
use acl_posix::*;
use std::process::Abort;

// `u::rw-,u:7:r--,g::r--,o::---`
const NO_MASK: Rows = (&[Owner, Bob, Group, Other], b"6440");

// `u::rw-,g::r--,m::r--,m::r--,o::---`
const TWO_MASKS: Rows = (&[Owner, Group, Mask, Mask, Other], b"64440");

// `u::rw-,u:7:r--,u:7:r--,g::r--,m::r--,o::---`
const TWO_USERS: Rows = (&[Owner, Bob, Bob, Group, Mask, Other], b"644440");

// `u::rw-,g:5:r--,g:5:r--,u::rw-`
const TWO_REPEATS: Rows = (&[Owner, Guests, Guests, Owner], b"6446");

// `o::r--,g::r--,u:7:r--,g:5:r--,o::r--`
const LATE_REPEAT: Rows = (&[Other, Group, Bob, Guests, Other], b"44444");

// `u::rwx,g::r-x,o::---`
const THREE: Rows = (&[Owner, Group, Other], b"750");

fn is_judged(memory: Memory, rows: Rows, fault: Option<AclFault>) -> bool {
    match memory.acl(rows) {
        Ok(_) => fault.is_none(),
        Err(found) => fault == Some(found) || memory.may_run_out(Some(found)),
    }
}

/// Runs the tables of this file.
pub fn tables<A: Abort>(rt: &A, memory: Memory) {
    whole_lists(rt, memory);
    cut_lists(rt, memory);
    messages(rt, memory);
}

// Valid lists are accepted, and each other list is refused with its fault.
fn whole_lists<A: Abort>(rt: &A, memory: Memory) {
    let table: [(Rows, Option<AclFault>); 12] = [
        (SHARED, None),
        (TWO_GROUPS, None),
        (DEFAULT, None),
        (NO_OWNER, None),
        (MASKED, None),
        (THREE, None),
        (NO_MASK, Some(AclFault::Miss(Tag::Mask))),
        (TWO_MASKS, Some(AclFault::Multi(3))),
        (TWO_USERS, Some(AclFault::Duplicate(2))),
        (TWO_REPEATS, Some(AclFault::Duplicate(2))),
        (LATE_REPEAT, Some(AclFault::Multi(4))),
        ((&[], &[]), Some(AclFault::Miss(Tag::UserObj))),
    ];
    for (rows, fault) in table {
        assert!(rt; is_judged(memory, rows, fault), "of {rows:?}");
    }
}

const CUT: [(Rows, Tag); 6] = [
    ((&[Other, Mask, Staff], b"446"), Tag::UserObj),
    ((&[Other, Mask, Staff, Owner, Amy], b"44666"), Tag::GroupObj),
    ((&[Mask, Staff, Owner, Amy, Group], b"46664"), Tag::Other),
    ((&[Owner], b"7"), Tag::GroupObj),
    ((&[Owner, Group], b"75"), Tag::Other),
    ((&[Owner, Group, Mask], b"644"), Tag::Other),
];

// A list without an entry that it needs is refused.
fn cut_lists<A: Abort>(rt: &A, memory: Memory) {
    for (rows, tag) in CUT {
        assert!(rt;
            is_judged(memory, rows, Some(AclFault::Miss(tag))),
            "of {rows:?}"
        );
    }
}

const MESSAGES: [(AclFault, &str); 5] = [
    (AclFault::Multi(3), "Multi at entry 3"),
    (AclFault::Duplicate(2), "Duplicate at entry 2"),
    (AclFault::Miss(Tag::Mask), "Miss MASK"),
    (AclFault::Miss(Tag::UserObj), "Miss USER_OBJ"),
    (AclFault::Memory, "out of memory"),
];

fn has_message(memory: Memory, fault: AclFault, message: &str) -> bool {
    match fault.to_string(memory.alloc) {
        Ok(text) => text.as_str() == message,
        Err(_) => !memory.is_ample,
    }
}

// Each fault has this message.
fn messages<A: Abort>(rt: &A, memory: Memory) {
    for (fault, message) in MESSAGES {
        assert!(rt; has_message(memory, fault, message), "of {message}");
    }
}

#[test]
fn the_greatest_id_is_4294967294(rt: HostRuntime) {
    assert!(rt; Id::new(4294967295).is_none());
    assert!(rt; Id::new(4294967294) == Some(Id { value: 4294967294 }));
}
