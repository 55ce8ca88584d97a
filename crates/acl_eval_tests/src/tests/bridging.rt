//! Bridged lists, row by row, and how many entries an ACL with a list can have. The lists are worked by hand from
//! docs/reference/lists.md, "From POSIX to NFSv4", because no standard has them. What the check answers is by acl(5),
//! "ACCESS CHECK ALGORITHM", what a list grants by RFC 8881, section 6.2.1, and the mode of a list by its section
//! 6.3.2.

use acl_eval::*;
use acl_lists_for_tests::{acl_of, kept, passes};
use acl_nfs4::{Acl, PushFault, parse_text};
use acl_perm::{Mask, Perm};
use acl_posix::{Entry, Id, PosixAcl, Tag};
use std::alloc::Global;
use std::process::Abort;
use std::test::Fail;

const TWO_GROUPS: &[u8] = b"u::rwx,g::---,g:50:r--,g:60:-w-,m::rw-,o::---";

const TWO_GROUPS_LIST: &[u8] = b"ALLOW - READ_DATA|WRITE_DATA|APPEND_DATA|EXECUTE OWNER@
ALLOW GROUP READ_DATA 50
ALLOW GROUP WRITE_DATA|APPEND_DATA 60
DENY - READ_DATA|WRITE_DATA|APPEND_DATA|EXECUTE GROUP@
DENY GROUP WRITE_DATA|APPEND_DATA|EXECUTE 50
DENY GROUP READ_DATA|EXECUTE 60
";

const PLAIN_LIST: &[u8] = b"ALLOW - READ_DATA|WRITE_DATA|APPEND_DATA OWNER@
DENY - EXECUTE OWNER@
ALLOW - READ_DATA GROUP@
DENY - WRITE_DATA|APPEND_DATA|EXECUTE GROUP@
ALLOW - READ_DATA EVERYONE@
";

const IDS_LIST: &[u8] = b"ALLOW - READ_DATA|WRITE_DATA|APPEND_DATA|EXECUTE OWNER@
ALLOW - READ_DATA 0
DENY - WRITE_DATA|APPEND_DATA|EXECUTE 0
ALLOW - READ_DATA 4294967294
DENY - WRITE_DATA|APPEND_DATA|EXECUTE 4294967294
ALLOW - READ_DATA GROUP@
DENY - WRITE_DATA|APPEND_DATA|EXECUTE GROUP@
ALLOW - EXECUTE EVERYONE@
";

// An ACL, the text of its list, and the mode of the list. The group digit of the mode is GROUP_OBJ limited by MASK.
static LISTS: [(&[u8], &[u8], u16); 3] = [
    (TWO_GROUPS, TWO_GROUPS_LIST, 0o700),
    (b"u::rw-,g::r--,o::r--", PLAIN_LIST, 0o644),
    (
        b"u::rwx,u:0:rwx,u:4294967294:r-x,g::rwx,m::r--,o::--x",
        IDS_LIST,
        0o741,
    ),
];

fn has_list(alloc: Global, acl: &PosixAcl, text: &[u8], mode: u16) -> Result<bool, PushFault> {
    let wanted = kept(parse_text(alloc, text))?;
    let list = kept(bridge(alloc, acl))?;
    Ok(list == wanted && mode_of(list.aces()).bits() == mode)
}

/// Checks that each ACL has the list of its row, and the list the mode of the row.
pub fn check_lists(rt: &impl Abort, alloc: Global) -> Result<(), PushFault> {
    for (text, list, mode) in LISTS {
        let acl = acl_of(alloc, text)?;
        assert!(rt; has_list(alloc, &acl, list, mode)?);
    }
    Ok(())
}

#[test]
fn each_acl_has_the_list_of_its_row(rt: HostRuntime) {
    assert!(rt; passes(check_lists(&rt, rt.alloc())));
}

// Returns whether the check of an object of user 1 and group 2 grants user 3, who is in the groups 50 and 60.
fn is_checked(acl: &PosixAcl, want: u8) -> Option<bool> {
    let groups = [Id::new(50)?, Id::new(60)?];
    let (owner, group, user) = (Id::new(1)?, Id::new(2)?, Id::new(3)?);
    Some(acl.check(owner, group, user, &groups, Perm::new(want)?))
}

// Returns whether the list grants these rights to the same user on the same object.
fn is_listed(list: &Acl, mask: u32) -> Option<bool> {
    let object = Object::new(b"1", b"2")?;
    let requester = Requester::new(b"3", &[b"50", b"60"])?;
    Some(grants(list.aces(), &object, &requester, Mask::new(mask)?))
}

// Permissions, the rights of these permissions, and whether the check and the list grant them.
static REQUESTS: [(u8, u32, bool, bool); 4] = [
    (6, 0x07, false, true),
    (4, 0x01, true, true),
    (2, 0x06, true, true),
    (1, 0x20, false, false),
];

fn push_row(entries: &mut Vec<Entry>, tag: Tag, bits: u8) -> Result<(), Fail> {
    let perm = Perm::new(bits).ok_or("permissions")?;
    entries.push(Entry { tag, perm })?;
    Ok(())
}

// Makes an ACL of this many users and the four entries without a qualifier, with these permissions of OTHER.
fn crowd(alloc: Global, users: u32, other: u8) -> Result<Vec<Entry>, Fail> {
    let mut entries = Vec::new(alloc);
    for (tag, bits) in [
        (Tag::UserObj, 6),
        (Tag::GroupObj, 4),
        (Tag::Mask, 7),
        (Tag::Other, other),
    ] {
        push_row(&mut entries, tag, bits)?;
    }
    for number in 0..users {
        let id = Id::new(number).ok_or("an id")?;
        push_row(&mut entries, Tag::User(id), 5)?;
    }
    Ok(entries)
}

fn judge_limit(rt: &impl Abort, alloc: Global, acl: &PosixAcl, is_within: bool) {
    match bridge(alloc, acl) {
        Ok(list) => assert!(rt; is_within && list.weight() == 65536),
        Err(fault) => assert!(rt; !is_within && fault == BridgeFault::Limits),
    }
}

mod ample {
    use super::*;

    // One group has read, and another has write. For both at once, the check denies and the list grants.
    #[test]
    fn a_list_grants_at_once_what_two_groups_have(rt: HostRuntime) -> Result<(), Fail> {
        let acl = acl_of(rt.alloc(), TWO_GROUPS)?;
        let list = bridge(rt.alloc(), &acl)?;
        for (want, mask, checked, granted) in REQUESTS {
            assert!(rt;
                is_checked(&acl, want) == Some(checked),
                "the check of {want}"
            );
            assert!(rt;
                is_listed(&list, mask) == Some(granted),
                "the list at {want}"
            );
        }
        Ok(())
    }

    // USER_OBJ, GROUP_OBJ and each USER cost four bits: 16,382 users fill a list.
    #[test]
    fn an_acl_has_a_list_up_to_the_limits_of_lists(rt: HostRuntime) -> Result<(), Fail> {
        for (users, other, is_within) in [
            (16382u32, 0, true),
            (16382, 4, false),
            (16383, 0, false),
        ] {
            let entries = crowd(rt.alloc(), users, other)?;
            let acl = PosixAcl::from_entries(rt.alloc(), entries)?;
            judge_limit(&rt, rt.alloc(), &acl, is_within);
        }
        Ok(())
    }
}
