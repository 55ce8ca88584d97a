//! The POSIX ACL of a list, by RFC 8881, section 6.2.1, and acl(5).
use crate::tests::{BAD_ARGUMENT, DONE, LIST, REFUSED, SHORT, no_fault};
use crate::{RawName, RawNames, RawPosixLoss, aclck_to_posix};
use acl_posix::RawEntry;
use std::alloc::Global;

const NO_ID: u32 = 0xffff_ffff;

const NO_ACE: &[u8; 4] = b"\0\0\0\0";

// `LIST` without its last byte.
const CUT: &[u8; 23] = b"\0\0\0\x01\0\0\0\0\0\0\0\0\0\0\0\x01\0\0\0\x03bob";

const BOB: RawName<'static> = RawName {
    name: b"bob",
    id: 5,
    is_group: 0,
};

const UNTOUCHED: RawEntry = RawEntry {
    tag: 7,
    id: 7,
    perm: 7,
};

const UNTOLD: RawPosixLoss = RawPosixLoss {
    exact: 7,
    owner: 7,
    group: 7,
    user: 7,
    want: 7,
    ngroups: 7,
    first_group: 7,
    second_group: 7,
    third_group: 7,
};

// The status, the number of entries in place of a 9, whether the ACL is exact, the user who loses something and what,
// and the reason of a refusal.
type Converted = (u32, usize, u32, u32, u32, u32);

fn converted(
    alloc: Global,
    acl: &[u8],
    names: &[RawName<'_>],
    most: u32,
    out: &mut [RawEntry],
) -> Converted {
    let names = RawNames { names };
    let mut fault = no_fault();
    let mut needed = 9;
    let mut loss = UNTOLD;
    let status = aclck_to_posix(
        alloc,
        acl,
        &names,
        most,
        out,
        &mut needed,
        &mut loss,
        &mut fault,
    );
    (
        status,
        needed,
        loss.exact,
        loss.user,
        loss.want,
        fault.reason,
    )
}

// A list, names, the most entries of users and groups, and what `converted` returns. bob may read. If the file is his,
// USER_OBJ decides, which is that of any owner, so bob loses read.
static LISTS: [(&[u8], &[RawName<'static>], u32, Converted); 7] = [
    (LIST, &[BOB], 1, (DONE, 5, 0, 5, 4, 0)),
    (NO_ACE, &[], 0, (DONE, 3, 1, 0, 0, 0)),
    (LIST, &[BOB], 0, (REFUSED, 9, 0, 0, 0, 28)),
    (LIST, &[], 1, (REFUSED, 9, 0, 0, 0, 22)),
    (CUT, &[BOB], 1, (REFUSED, 9, 0, 0, 0, 1)),
    (LIST, &[BOB], 65_536, (BAD_ARGUMENT, 9, 0, 0, 0, 0)),
    (LIST, &[BOB, BOB], 1, (BAD_ARGUMENT, 9, 0, 0, 0, 0)),
];

#[test]
fn a_list_is_converted_or_refused(rt: HostRuntime) {
    let mut out = [UNTOUCHED; 5];
    for (list, names, most, expected) in LISTS {
        let answer = converted(rt.alloc(), list, names, most, &mut out);
        assert!(rt; answer == expected);
    }
}

#[test]
fn a_loss_is_written_where_the_entries_have_no_room(rt: HostRuntime) {
    let mut out = [UNTOUCHED; 4];
    let answer = converted(rt.alloc(), LIST, &[BOB], 65_535, &mut out);
    assert!(rt; answer == (SHORT, 5, 0, 5, 4, 0));
    assert!(rt; out[0].tag == 7);
    let answer = converted(rt.alloc(), NO_ACE, &[], 0, &mut []);
    assert!(rt; answer == (SHORT, 3, 1, 0, 0, 0));
}

// The tag, the id and the permissions of each entry of the POSIX ACL, and the next place, which stays as it was.
static ENTRIES: [(u32, u32, u32); 6] = [
    (1, NO_ID, 0),
    (2, 5, 4),
    (3, NO_ID, 0),
    (5, NO_ID, 4),
    (6, NO_ID, 0),
    (7, 7, 7),
];

#[test]
fn entries_are_in_canonical_order(rt: HostRuntime) {
    let mut out = [UNTOUCHED; 6];
    let answer = converted(rt.alloc(), LIST, &[BOB], 1, &mut out);
    assert!(rt; answer == (DONE, 5, 0, 5, 4, 0));
    for (entry, (tag, id, perm)) in out.iter().zip(&ENTRIES) {
        assert!(rt; entry.tag == *tag);
        assert!(rt; entry.id == *id);
        assert!(rt; entry.perm == *perm);
    }
}
