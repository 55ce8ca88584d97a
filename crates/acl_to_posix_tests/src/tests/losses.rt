//! Permissions that a list grants and an ACL does not. The first rows are from `formal/to_posix.jsonl`, where another
//! program tried every situation of the names of a list. The last rows are worked by hand from RFC 8881, section 6.2.1,
//! and acl(5), "ACCESS CHECK ALGORITHM".

use acl_lists_for_tests::{acl_of, kept, passes};
use acl_nfs4::{PushFault, parse_text};
use acl_perm::Perm;
use acl_posix::{Id, Names};
use acl_to_posix::{LostGrant, ShapeFault, lost_grant};
use std::alloc::Global;
use std::process::Abort;

const NOTHING: &[u8] = b"u::---,g::---,o::---";

// A list, an ACL, the permission that is lost, or none, and the groups of the requester that it takes.
static ROWS: [(&[u8], &[u8], u8, &[u32]); 16] = [
    (
        b"DENY - WRITE_DATA 1002\nALLOW - READ_DATA|EXECUTE OWNER@\nALLOW - READ_DATA|EXECUTE GROUP@",
        b"u::r-x,g::r-x,o::---",
        0,
        &[],
    ),
    (b"ALLOW - WRITE_DATA EVERYONE@", NOTHING, 0, &[]),
    (
        b"ALLOW - WRITE_DATA|APPEND_DATA|EXECUTE OWNER@",
        b"u::-wx,g::---,o::---",
        0,
        &[],
    ),
    (
        b"DENY - READ_DATA GROUP@\nALLOW - EXECUTE 1002",
        b"u::---,u:1002:--x,g::---,m::--x,o::---",
        1,
        &[],
    ),
    (
        b"ALLOW GROUP WRITE_DATA|APPEND_DATA 2001",
        b"u::---,g::---,g:2001:-w-,m::-w-,o::---",
        2,
        &[2001],
    ),
    (
        b"ALLOW - READ_DATA OWNER@\nALLOW - READ_DATA 1001",
        b"u::r--,u:1001:---,g::---,m::r--,o::---",
        4,
        &[],
    ),
    (
        b"ALLOW GROUP WRITE_DATA 5\nALLOW GROUP APPEND_DATA 7",
        NOTHING,
        2,
        &[5, 7],
    ),
    (
        b"ALLOW GROUP WRITE_DATA 5\nDENY GROUP APPEND_DATA 5\nALLOW GROUP APPEND_DATA 7",
        NOTHING,
        0,
        &[],
    ),
    (
        b"ALLOW GROUP WRITE_DATA 5\nALLOW GROUP APPEND_DATA 7\nALLOW - WRITE_DATA|APPEND_DATA OWNER@",
        b"u::-w-,g::-w-,g:9:---,m::-w-,o::-w-",
        2,
        &[5, 7, 9],
    ),
    (
        b"ALLOW GROUP WRITE_DATA 5\nALLOW GROUP APPEND_DATA 7\nALLOW - WRITE_DATA|APPEND_DATA OWNER@",
        b"u::-w-,g::-w-,o::-w-",
        0,
        &[],
    ),
    // MASK takes write away.
    (
        b"ALLOW GROUP WRITE_DATA|APPEND_DATA 5",
        b"u::-w-,g::-w-,g:5:-w-,m::r--,o::-w-",
        2,
        &[5],
    ),
    // An ALLOW after a DENY of EVERYONE@ allows nobody.
    (
        b"DENY - READ_DATA EVERYONE@\nALLOW - READ_DATA 5\nALLOW GROUP READ_DATA 7",
        NOTHING,
        0,
        &[],
    ),
    // No requester is two users: each of them has one right.
    (
        b"ALLOW - WRITE_DATA 5\nALLOW - APPEND_DATA 6",
        NOTHING,
        0,
        &[],
    ),
    // The user is in the group 7, whose ALLOW is before the DENY of the user.
    (
        b"ALLOW GROUP READ_DATA 7\nDENY - READ_DATA 5",
        b"u::r--,u:5:---,g::r--,g:7:r--,m::r--,o::r--",
        4,
        &[7],
    ),
    // Whom nothing names is a stranger, and 0 is the id of a user who is named.
    (
        b"DENY - READ_DATA 0\nDENY GROUP READ_DATA 0\nALLOW - READ_DATA EVERYONE@",
        NOTHING,
        4,
        &[],
    ),
    (
        b"DENY - READ_DATA 0\nDENY GROUP READ_DATA 0\nALLOW - READ_DATA EVERYONE@",
        b"u::r--,u:0:---,g::r--,g:0:---,m::r--,o::r--",
        0,
        &[],
    ),
];

fn lost(alloc: Global, list: &[u8], text: &[u8]) -> Result<Option<LostGrant>, PushFault> {
    let acl = acl_of(alloc, text)?;
    let list = kept(parse_text(alloc, list))?;
    kept(lost_grant(alloc, &list.view(), &acl, &Names::new(alloc), 256))
}

// Returns whether each of the groups is one of those of the requester.
fn has_groups(groups: &[Id], wanted: &[u32]) -> bool {
    wanted
        .iter()
        .all(|id| groups.iter().any(|group| group.value == *id))
}

// Returns whether this is what is lost, or whether nothing is.
fn is_lost(found: &Option<LostGrant>, perm: u8, groups: &[u32]) -> bool {
    match found {
        None => perm == 0,
        Some(lost) => lost.perm.bits == perm && has_groups(&lost.groups, groups),
    }
}

/// Checks what is lost of each list.
pub fn check_losses(rt: &impl Abort, alloc: Global) -> Result<(), PushFault> {
    for (list, text, perm, groups) in ROWS {
        assert!(rt; is_lost(&lost(alloc, list, text)?, perm, groups));
    }
    Ok(())
}

#[test]
fn each_list_loses_what_its_row_says(rt: HostRuntime) {
    assert!(rt; passes(check_losses(&rt, rt.alloc())));
}

mod ample {
    use super::*;
    use std::test::Fail;

    // A list and an ACL, and how many users and groups the list names and entries the ACL has together.
    const COUNTS: [(&[u8], &[u8], u16); 4] = [
        (b"", NOTHING, 3),
        (
            b"ALLOW - READ_DATA 7\nDENY GROUP READ_DATA 7\nDENY - EXECUTE 7\nDENY - DELETE 5",
            NOTHING,
            5,
        ),
        (
            b"ALLOW - READ_DATA 7",
            b"u::r--,u:7:---,g::r--,m::r--,o::---",
            6,
        ),
        (
            b"ALLOW - READ_DATA 1\nALLOW - READ_DATA 2\nALLOW - READ_DATA 3\nALLOW - READ_DATA 4",
            NOTHING,
            7,
        ),
    ];

    fn bounded(
        alloc: Global,
        list: &[u8],
        text: &[u8],
        most: u16,
    ) -> Result<Result<Option<LostGrant>, ShapeFault>, Fail> {
        let acl = acl_of(alloc, text)?;
        let list = parse_text(alloc, list)?;
        Ok(lost_grant(alloc, &list.view(), &acl, &Names::new(alloc), most))
    }

    #[test]
    fn a_loss_is_sought_if_the_names_are_within_the_bound(rt: HostRuntime) -> Result<(), Fail> {
        let alloc = rt.alloc();
        for (list, text, count) in COUNTS {
            let found = bounded(alloc, list, text, count)?;
            assert!(rt; found.is_ok());
            for most in [count.saturating_sub(1), 2, 0] {
                let refused = bounded(alloc, list, text, most)?;
                assert!(rt; matches!(&refused, Err(ShapeFault::TooManyNames)));
            }
        }
        Ok(())
    }
}
