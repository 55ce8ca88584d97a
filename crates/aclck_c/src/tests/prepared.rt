//! Questions to prepared bytes. What a list grants is by RFC 8881, section 6.2.1; the bytes are written by hand, as
//! `specs/Prepared.antt` of `acl_eval` describes them.
ghost use Rattle.std.specs.Prelude.{◌≤◌};

use super::{BAD_ARGUMENT, DONE, LIST, OBJECT};
use crate::nfs4::decide::RawDecided;
use crate::options::{GROUPS_IN_ORDER, NARROW};
use crate::{RawQuestion, RawRequester, aclck_decide_prepared, aclck_decide_prepared_many};
use std::alloc::Global;
use std::test::Fail;

// ALLOW READ_DATA bob: the mask in four bytes, 2 for an ALLOW of a user, the key of the name, and its length in two.
pub(super) const PREPARED: &[u8; 19] = b"aclprep1\x01\0\0\0\x02\xb5\x03\0bob";

// The same bytes, whose last ACE ends inside its name.
const CUT: &[u8; 18] = b"aclprep1\x01\0\0\0\x02\xb5\x03\0bo";

// DENY READ_DATA to the group users, and ALLOW READ_DATA EVERYONE@: 7 for a DENY of a group, and 8 for an ALLOW of
// everyone, whose name is empty.
const GROUP_DENIED: &[u8; 29] = b"aclprep1\x01\0\0\0\x07\x08\x05\0users\x01\0\0\0\x08\0\0\0";

const READ: RawQuestion = RawQuestion {
    mask: 1,
    options: 0,
};

const READ_IN_ORDER: RawQuestion = RawQuestion {
    mask: 1,
    options: GROUPS_IN_ORDER,
};

const UNTOUCHED: RawDecided = RawDecided {
    allowed: 7,
    denied: 7,
};

fn named(user: &[u8]) -> RawRequester<'_> {
    RawRequester { user, groups: &[] }
}

// The status for this user, and the rights that are then allowed and denied.
fn decide(alloc: Global, prepared: &[u8], user: &[u8], question: &RawQuestion) -> (u32, u32, u32) {
    let mut decided = UNTOUCHED;
    let requester = named(user);
    let status = aclck_decide_prepared(
        alloc,
        prepared,
        &OBJECT,
        &requester,
        question,
        &mut decided,
    );
    (status, decided.allowed, decided.denied)
}

#[test]
fn prepared_bytes_answer_and_others_are_refused_or_answer(rt: HostRuntime) -> Result<(), Fail> {
    let in_order = RawQuestion {
        mask: 3,
        options: GROUPS_IN_ORDER,
    };
    let narrow = RawQuestion {
        mask: 1,
        options: NARROW,
    };
    let no_mask = RawQuestion {
        mask: 0x800,
        options: 0,
    };
    let rows = [
        (PREPARED.as_slice(), "bob", READ, (DONE, 1, 0)),
        (PREPARED.as_slice(), "bob", in_order, (DONE, 1, 0)),
        (PREPARED.as_slice(), "eve", READ, (DONE, 0, 0)),
        (PREPARED.as_slice(), "", READ, (BAD_ARGUMENT, 0, 0)),
        (PREPARED.as_slice(), "bob", narrow, (BAD_ARGUMENT, 0, 0)),
        (PREPARED.as_slice(), "bob", no_mask, (BAD_ARGUMENT, 0, 0)),
        (LIST.as_slice(), "bob", READ, (BAD_ARGUMENT, 0, 0)),
        (CUT.as_slice(), "bob", READ, (BAD_ARGUMENT, 0, 0)),
    ];
    for (prepared, user, question, expected) in rows {
        let answer = decide(rt.alloc(), prepared, user.as_bytes(), &question);
        assert_eq!(rt; answer, expected);
    }
    Ok(())
}

// The status for bob and eve, and the rights that are then allowed bob, eve and a third.
fn decide_many(alloc: Global, prepared: &[u8], places: usize) -> (u32, u32, u32, u32)
    requires { places ≤ 3 }
{
    let requesters = [named(b"bob"), named(b"eve")];
    let mut decided = [UNTOUCHED; 3];
    let room = &mut decided[..places];
    let status = aclck_decide_prepared_many(alloc, prepared, &OBJECT, &requesters, &READ, room);
    (
        status,
        decided[0].allowed,
        decided[1].allowed,
        decided[2].allowed,
    )
}

#[test]
fn each_requester_has_a_place(rt: HostRuntime) -> Result<(), Fail> {
    let rows = [
        (PREPARED.as_slice(), 2, (DONE, 1, 0, 7)),
        (PREPARED.as_slice(), 1, (BAD_ARGUMENT, 0, 7, 7)),
        (PREPARED.as_slice(), 3, (BAD_ARGUMENT, 0, 0, 0)),
        (CUT.as_slice(), 2, (BAD_ARGUMENT, 0, 0, 7)),
    ];
    for (prepared, places, expected) in rows {
        let answer = decide_many(rt.alloc(), prepared, places);
        assert_eq!(rt; answer, expected);
    }
    Ok(())
}

// The rights that `GROUP_DENIED` denies bob, who is in these groups: alone, and as the second of two requesters.
fn denied(alloc: Global, groups: &[&[u8]], question: &RawQuestion) -> (u32, u32) {
    let bob = RawRequester {
        user: b"bob",
        groups,
    };
    let mut alone = UNTOUCHED;
    aclck_decide_prepared(alloc, GROUP_DENIED, &OBJECT, &bob, question, &mut alone);
    let mut both = [UNTOUCHED; 2];
    aclck_decide_prepared_many(
        alloc,
        GROUP_DENIED,
        &OBJECT,
        &[named(b"eve"), bob],
        question,
        &mut both,
    );
    (alone.denied, both[1].denied)
}

// Groups, and whether bob is denied READ_DATA: if the caller does not say that they are in order, and if the caller
// does. A binary search compares with staff first, and then with the name behind it.
#[test]
fn a_group_that_a_binary_search_misses_denies_nothing(rt: HostRuntime) {
    let rows: [(&[&[u8]], u32, u32); 4] = [
        (&[], 0, 0),
        (&[b"admin", b"staff", b"users"], 1, 1),
        (&[b"users", b"staff", b"admin"], 1, 0),
        (&[b"users", b"staff", b"users"], 1, 1),
    ];
    for (groups, unsaid, said) in rows {
        assert!(rt; denied(rt.alloc(), groups, &READ) == (unsaid, unsaid));
        assert!(rt; denied(rt.alloc(), groups, &READ_IN_ORDER) == (said, said));
    }
}
