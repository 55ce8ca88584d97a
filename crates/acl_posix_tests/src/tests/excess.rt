//! For whom one ACL grants what another denies (acl(5), "ACCESS CHECK ALGORITHM"), worked out by hand.

use super::harness::Who::{Amy, Bob, Group, Mask, Ops, Other, Owner, Staff};
use super::harness::{MASKED, Memory, NO_OWNER, Rows, SHARED, TWO_GROUPS};
use acl_perm::Perm;
use acl_posix::*;
use std::process::Abort;

// `u::rwx,g::---,g:50:rw-,m::rw-,o::---`
const ONE_GROUP: Rows = (&[Owner, Group, Staff, Mask, Other], b"70660");

// `u::rwx,g::---,g:60:---,m::rwx,o::rw-`
const SHUT_GROUP: Rows = (&[Owner, Group, Ops, Mask, Other], b"70076");

// `u::rwx,u:7:r--,g::---,m::rwx,o::---`
const BOB_READS: Rows = (&[Owner, Bob, Group, Mask, Other], b"74070");

// `u::rwx,g::---,m::rwx,o::r--`
const OTHERS_READ: Rows = (&[Owner, Group, Mask, Other], b"7074");

// `u::rwx,u:7:---,u:1001:rwx,g::---,m::r--,o::---`
const AMY_READS: Rows = (&[Owner, Bob, Amy, Group, Mask, Other], b"707040");

// Two ACLs, and what the first grants and the second denies.
type Row = (Rows, Rows, Option<PosixDifference>);

fn is_found(memory: Memory, first: Rows, second: Rows, wanted: Option<PosixDifference>) -> bool {
    match (memory.acl(first), memory.acl(second)) {
        (Ok(first), Ok(second)) => first.excess(&second) == wanted,
        (Err(fault), _) | (_, Err(fault)) => memory.may_run_out(Some(fault)),
    }
}

/// The owner, the owning group, the user, the groups of the user, and the request of a difference.
fn found(
    owner: u32,
    group: u32,
    user: u32,
    groups: FewGroups,
    bits: u8,
) -> Option<PosixDifference> {
    let request = Perm::new(bits)?;
    Some(PosixDifference {
        owner: Id::new(owner)?,
        group: Id::new(group)?,
        user: Id::new(user)?,
        groups,
        request,
    })
}

// Each pair of ACLs has the difference that the entries show.
fn have_differences<A: Abort>(rt: &A, memory: Memory, table: &[Row]) {
    for (first, second, wanted) in table {
        assert!(rt;
            is_found(memory, *first, *second, *wanted),
            "{first:?} and {second:?}"
        );
    }
}

/// The owner, and users whom an ACL names.
pub fn differences_of_users<A: Abort>(rt: &A, memory: Memory) {
    let table: [Row; 7] = [
        // The second ACL grants the same, or more.
        (MASKED, MASKED, None),
        (SHARED, SHARED, None),
        (NO_OWNER, (&[Owner, Group, Other], b"777"), None),
        // The owner.
        (MASKED, NO_OWNER, found(0, 0, 0, FewGroups::None, 1)),
        // Users whom only the first ACL names, of whom the mask limits one, and a user of both.
        (AMY_READS, BOB_READS, found(0, 0, 1001, FewGroups::None, 4)),
        (BOB_READS, AMY_READS, found(0, 0, 7, FewGroups::None, 4)),
        // A user whom only the second ACL names: OTHER of the first decides for him.
        (OTHERS_READ, AMY_READS, found(0, 0, 7, FewGroups::None, 4)),
    ];
    have_differences(rt, memory, &table);
}

/// The owning group, and groups that an ACL names.
pub fn differences_of_groups<A: Abort>(rt: &A, memory: Memory) {
    let (staff, owning) = (Id { value: 50 }, Id { value: 0 });
    let of_ops = FewGroups::One(Id { value: 60 });
    let of_staff = FewGroups::One(staff);
    let of_owning = FewGroups::One(owning);
    let of_both = FewGroups::Two(staff, owning);
    let table: [Row; 5] = [
        (TWO_GROUPS, ONE_GROUP, found(1, 0, 0, of_ops, 2)),
        // The mask takes w and x from the owning group, and OTHER decides for nobody in it.
        (NO_OWNER, MASKED, found(1, 0, 0, of_owning, 1)),
        // Two groups: one is granted w by the first ACL, and the other is denied it by the second.
        (ONE_GROUP, SHUT_GROUP, found(1, 0, 0, of_both, 2)),
        // One group of which the second ACL has an entry, and the first has none.
        (
            (&[Owner, Group, Other], b"766"),
            SHUT_GROUP,
            found(1, 0, 0, of_owning, 2),
        ),
        // The request is made of two permissions, which two entries of the second ACL have.
        (ONE_GROUP, TWO_GROUPS, found(1, 0, 0, of_staff, 2)),
    ];
    have_differences(rt, memory, &table);
}
