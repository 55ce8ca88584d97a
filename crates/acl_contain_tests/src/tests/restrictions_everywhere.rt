//! What a list keeps under a bound on the object and on everything that will ever be created below it: worked lists,
//! over the first match (RFC 8881, section 6.2.1) and the table of inheritance of docs/reference/lists.md.

use super::lists::{EVERYONE, FILE_INHERIT, INHERIT_ONLY, READ_DATA, WRITE_DATA};
use super::restrictions::cut;
use acl_contain::{excess, restricted_everywhere};
use acl_eval::{ChildKind, child};
use acl_lists_for_tests::{ALLOW, AceRow, DENY, built, kept, passes};
use acl_nfs4::{Acl, PushFault};
use std::alloc::{AllocError, Global};
use std::process::Abort;

const DIRECTORY_INHERIT: u32 = 0x02;

const NO_PROPAGATE: u32 = 0x04;

const BOB: AceRow = (ALLOW, 0, READ_DATA, b"bob");

const BOB_IN_FILES: AceRow = (ALLOW, FILE_INHERIT, READ_DATA, b"bob");

const BOB_IN_DIRECTORIES: AceRow = (ALLOW, DIRECTORY_INHERIT, READ_DATA, b"bob");

const ALL_IN_FILES: AceRow = (ALLOW, FILE_INHERIT, READ_DATA, b"EVERYONE@");

const NO_BOB_IN_FILES: AceRow = (DENY, FILE_INHERIT, READ_DATA, b"bob");

// A list, a bound, and what the list keeps.
static ROWS: [(&[AceRow], &[AceRow], &[AceRow]); 13] = [
    (&[], &[], &[]),
    // An ALLOW for new files alone.
    (
        &[(
            ALLOW,
            FILE_INHERIT | INHERIT_ONLY,
            READ_DATA | WRITE_DATA,
            b"EVERYONE@",
        )],
        &[ALL_IN_FILES],
        &[(ALLOW, FILE_INHERIT | INHERIT_ONLY, READ_DATA, b"EVERYONE@")],
    ),
    // The bound is for the object alone, and then for new files alone.
    (&[BOB_IN_FILES], &[BOB], &[(ALLOW, FILE_INHERIT, 0, b"bob")]),
    (
        &[BOB_IN_FILES],
        &[(ALLOW, FILE_INHERIT | INHERIT_ONLY, READ_DATA, b"bob")],
        &[(ALLOW, FILE_INHERIT, 0, b"bob")],
    ),
    (&[BOB_IN_FILES], &[BOB_IN_FILES], &[BOB_IN_FILES]),
    // An ALLOW that takes part on no object.
    (
        &[(ALLOW, INHERIT_ONLY, READ_DATA, b"bob")],
        &[],
        &[(ALLOW, INHERIT_ONLY, READ_DATA, b"bob")],
    ),
    // The bound ends in the first new directory, and the list does not.
    (
        &[BOB_IN_FILES],
        &[(ALLOW, FILE_INHERIT | NO_PROPAGATE, READ_DATA, b"bob")],
        &[(ALLOW, FILE_INHERIT, 0, b"bob")],
    ),
    (
        &[BOB_IN_DIRECTORIES],
        &[(ALLOW, DIRECTORY_INHERIT | NO_PROPAGATE, READ_DATA, b"bob")],
        &[(ALLOW, DIRECTORY_INHERIT, 0, b"bob")],
    ),
    // The list ends there, and the bound does not.
    (
        &[(ALLOW, DIRECTORY_INHERIT | NO_PROPAGATE, READ_DATA, b"bob")],
        &[BOB_IN_DIRECTORIES],
        &[(ALLOW, DIRECTORY_INHERIT | NO_PROPAGATE, READ_DATA, b"bob")],
    ),
    // New files do not have the DENY of the list, and then the object does not have it.
    (
        &[(DENY, 0, READ_DATA, b"bob"), ALL_IN_FILES],
        &[NO_BOB_IN_FILES, ALL_IN_FILES],
        &[
            (DENY, 0, READ_DATA, b"bob"),
            (ALLOW, FILE_INHERIT, 0, b"EVERYONE@"),
        ],
    ),
    (
        &[
            (DENY, FILE_INHERIT | INHERIT_ONLY, READ_DATA, b"bob"),
            ALL_IN_FILES,
        ],
        &[NO_BOB_IN_FILES, ALL_IN_FILES],
        &[
            (DENY, FILE_INHERIT | INHERIT_ONLY, READ_DATA, b"bob"),
            (ALLOW, FILE_INHERIT, 0, b"EVERYONE@"),
        ],
    ),
    (
        &[NO_BOB_IN_FILES, ALL_IN_FILES],
        &[NO_BOB_IN_FILES, ALL_IN_FILES],
        &[NO_BOB_IN_FILES, ALL_IN_FILES],
    ),
    // The first ACE of a new file is the second of the list.
    (
        &[EVERYONE, BOB_IN_FILES],
        &[EVERYONE],
        &[EVERYONE, (ALLOW, FILE_INHERIT, 0, b"bob")],
    ),
];

/// Each list keeps what is expected.
pub fn worked_restrictions(rt: &impl Abort, alloc: Global) -> Result<(), PushFault> {
    for (rows, bound, expected) in &ROWS {
        let list = built(alloc, rows)?;
        let limit = built(alloc, bound)?;
        let wanted = built(alloc, expected)?;
        let left = kept(restricted_everywhere(alloc, &list, &limit))?;
        assert!(rt; left == wanted);
    }
    Ok(())
}

#[test]
fn a_list_keeps_most_under_a_bound_at_every_path(rt: HostRuntime) {
    assert!(rt; passes(worked_restrictions(&rt, rt.alloc())));
}

static FEW: [AceRow; 6] = [
    (ALLOW, FILE_INHERIT | INHERIT_ONLY, READ_DATA, b"bob"),
    (
        ALLOW,
        FILE_INHERIT | DIRECTORY_INHERIT,
        READ_DATA,
        b"EVERYONE@",
    ),
    (
        ALLOW,
        FILE_INHERIT | DIRECTORY_INHERIT | NO_PROPAGATE,
        READ_DATA,
        b"bob",
    ),
    (ALLOW, DIRECTORY_INHERIT, READ_DATA, b"EVERYONE@"),
    (DENY, FILE_INHERIT, READ_DATA, b"bob"),
    (DENY, DIRECTORY_INHERIT | INHERIT_ONLY, READ_DATA, b"bob"),
];

// Whether the list grants at most what the bound grants, on the object, on new files and directories in it, and on those
// in new directories down to the given depth.
fn is_within(alloc: Global, list: &Acl, bound: &Acl, depth: u32) -> Result<bool, AllocError> {
    let mut directory = list.copy(alloc)?;
    let mut limit = bound.copy(alloc)?;
    for _ in 0..depth {
        if excess(alloc, &directory, &limit)?.is_some() {
            return Ok(false);
        }
        let file = child(alloc, &directory, ChildKind::File)?;
        let file_limit = child(alloc, &limit, ChildKind::File)?;
        if excess(alloc, &file, &file_limit)?.is_some() {
            return Ok(false);
        }
        directory = child(alloc, &directory, ChildKind::Directory)?;
        limit = child(alloc, &limit, ChildKind::Directory)?;
    }
    Ok(true)
}

// What a list of two rows keeps, by trial of each way to take rights out: whatever one of them that is within the bound
// keeps.
fn expected(alloc: Global, first: AceRow, second: AceRow, bound: &Acl) -> Result<Acl, PushFault> {
    let (mut keeps_first, mut keeps_second) = (false, false);
    for (keeps_one, keeps_other) in [(true, false), (false, true), (true, true)] {
        let list = built(alloc, &[cut(first, keeps_one), cut(second, keeps_other)])?;
        if kept(is_within(alloc, &list, bound, 4))? {
            keeps_first = keeps_first || keeps_one;
            keeps_second = keeps_second || keeps_other;
        }
    }
    built(alloc, &[cut(first, keeps_first), cut(second, keeps_second)])
}

// Restricts a list of two rows by a bound of two rows. Returns whether it has lost a right.
fn loses_a_right(
    rt: &impl Abort,
    alloc: Global,
    (first, second): (AceRow, AceRow),
    (third, fourth): (AceRow, AceRow),
) -> Result<bool, PushFault> {
    let list = built(alloc, &[first, second])?;
    let bound = built(alloc, &[third, fourth])?;
    let left = kept(restricted_everywhere(alloc, &list, &bound))?;
    assert!(rt; left == expected(alloc, first, second, &bound)?);
    assert!(rt; kept(is_within(alloc, &left, &bound, 4))?);
    Ok(left != list)
}

mod ample {
    use super::*;

    #[test]
    fn each_short_list_keeps_what_exceeds_no_short_bound_at_any_depth(
        rt: HostRuntime,
    ) -> Result<(), PushFault> {
        let (mut whole, mut less) = (0u32, 0u32);
        for first in &FEW {
            for second in &FEW {
                for third in &FEW {
                    for fourth in &FEW {
                        if loses_a_right(&rt, rt.alloc(), (*first, *second), (*third, *fourth))? {
                            less = less.saturating_add(1);
                        } else {
                            whole = whole.saturating_add(1);
                        }
                    }
                }
            }
        }
        assert!(rt; whole > 200 && less > 200, "{whole} {less}");
        Ok(())
    }
}
