//! POSIX ACLs of lists. The lists and the ACLs of the rows are from `formal/to_posix.jsonl`, where another program made
//! them by enumeration of the situations of their names.

use acl_lists_for_tests::{acl_of, kept, passes};
use acl_nfs4::{PushFault, parse_text};
use acl_posix::Names;
use acl_to_posix::{ShapeFault, ToPosix, to_posix};
use std::alloc::Global;
use std::process::Abort;

// A DENY of a user that nothing needs: the NFS server of Linux keeps an empty entry for the user.
const NEEDLESS: &[u8] = b"ALLOW - READ_DATA OWNER@
ALLOW - READ_DATA GROUP@
DENY - READ_DATA 1001
";

// All four names go: the entries of the users have nothing that others lack.
const ALL_GO: &[u8] = b"DENY GROUP READ_DATA|WRITE_DATA|APPEND_DATA|EXECUTE 2002
ALLOW - READ_DATA|WRITE_DATA|APPEND_DATA|EXECUTE 1002
DENY - WRITE_DATA|APPEND_DATA 1002
ALLOW GROUP APPEND_DATA 2001
ALLOW - READ_DATA|EXECUTE 1001
ALLOW - WRITE_DATA|APPEND_DATA 1001
";

// Three names go: everyone has what they have.
const EVERYONE_HAS_ALL: &[u8] = b"ALLOW - EXECUTE EVERYONE@
ALLOW GROUP READ_DATA 2002
ALLOW - WRITE_DATA|APPEND_DATA|EXECUTE 1002
ALLOW - READ_DATA|WRITE_DATA|APPEND_DATA|EXECUTE OWNER@
ALLOW - READ_DATA|WRITE_DATA|APPEND_DATA|EXECUTE EVERYONE@
ALLOW GROUP WRITE_DATA 2001
";

// A group stays that has more than others, and the two users and the other group go.
const A_GROUP_STAYS: &[u8] = b"ALLOW GROUP WRITE_DATA|APPEND_DATA|EXECUTE 2001
ALLOW - WRITE_DATA 1001
DENY - WRITE_DATA|APPEND_DATA GROUP@
DENY GROUP READ_DATA 2002
ALLOW - READ_DATA 1002
";

// The group 2002 stays, since others would lose write without it: its members are denied WRITE_DATA.
const OTHERS_WOULD_LOSE: &[u8] = b"DENY GROUP WRITE_DATA 2002
DENY GROUP WRITE_DATA 2002
ALLOW - READ_DATA|WRITE_DATA|APPEND_DATA EVERYONE@
ALLOW - WRITE_DATA|APPEND_DATA|EXECUTE 1001
ALLOW GROUP READ_DATA 2001
";

// A user with an empty entry stays, since the group 2002 would lose write without it.
const A_GROUP_WOULD_LOSE: &[u8] = b"ALLOW GROUP WRITE_DATA 2001
DENY - WRITE_DATA|APPEND_DATA OWNER@
DENY - APPEND_DATA 1001
ALLOW GROUP WRITE_DATA|APPEND_DATA|EXECUTE 2002
DENY - READ_DATA GROUP@
";

// A DENY of a group falls on the owner and on all other groups, and not on others.
const A_GROUP_IS_DENIED: &[u8] = b"DENY GROUP WRITE_DATA|APPEND_DATA 2002
ALLOW - READ_DATA|WRITE_DATA|APPEND_DATA|EXECUTE EVERYONE@
";

// A DENY of a user without an entry falls on the owner, on GROUP_OBJ and on each GROUP, but only where no ALLOW of the
// entry is before it.
const THE_OWNER_MAY_BE_A_USER: &[u8] = b"ALLOW GROUP READ_DATA|WRITE_DATA|APPEND_DATA 2001
DENY - WRITE_DATA 1001
ALLOW - READ_DATA|EXECUTE GROUP@
ALLOW - READ_DATA|WRITE_DATA|APPEND_DATA OWNER@
";

// WRITE_DATA alone is not write.
const NOT_APPENDED: &[u8] = b"ALLOW - EXECUTE OWNER@
ALLOW - READ_DATA|WRITE_DATA|EXECUTE EVERYONE@
ALLOW - READ_DATA|WRITE_DATA|APPEND_DATA|EXECUTE 1001
";

const USERS_AND_A_GROUP: &[u8] = b"DENY - WRITE_DATA 1001
ALLOW - READ_DATA|WRITE_DATA|APPEND_DATA|EXECUTE 1002
ALLOW - WRITE_DATA|APPEND_DATA GROUP@
ALLOW GROUP READ_DATA|APPEND_DATA 2001
DENY - WRITE_DATA 1002
";

const NO_NAMES: &[u8] = b"DENY - WRITE_DATA 1002
ALLOW - READ_DATA|EXECUTE OWNER@
ALLOW - READ_DATA|EXECUTE GROUP@
DENY - READ_DATA|WRITE_DATA|APPEND_DATA EVERYONE@
";

// A list, its ACL, and whether the two agree in every situation of their names.
static ROWS: [(&[u8], &[u8], bool); 11] = [
    (NEEDLESS, b"u::r--,g::r--,o::---", true),
    (ALL_GO, b"u::---,g::---,o::---", false),
    (EVERYONE_HAS_ALL, b"u::rwx,g::rwx,o::rwx", true),
    (
        A_GROUP_STAYS,
        b"u::---,g::---,g:2001:-wx,m::-wx,o::---",
        false,
    ),
    (
        OTHERS_WOULD_LOSE,
        b"u::r--,u:1001:r-x,g::r--,g:2002:r--,m::r-x,o::rw-",
        false,
    ),
    (
        A_GROUP_WOULD_LOSE,
        b"u::---,u:1001:---,g::---,g:2002:-wx,m::-wx,o::---",
        false,
    ),
    (
        A_GROUP_IS_DENIED,
        b"u::r-x,g::r-x,g:2002:r-x,m::r-x,o::rwx",
        false,
    ),
    (
        THE_OWNER_MAY_BE_A_USER,
        b"u::r--,g::r-x,g:2001:rw-,m::rwx,o::---",
        false,
    ),
    (
        NOT_APPENDED,
        b"u::r-x,u:1001:rwx,g::r-x,m::rwx,o::r-x",
        false,
    ),
    (
        USERS_AND_A_GROUP,
        b"u::---,u:1001:---,u:1002:rwx,g::-w-,g:2001:r--,m::rwx,o::---",
        false,
    ),
    (NO_NAMES, b"u::r-x,g::r-x,o::---", true),
];

fn converted(alloc: Global, list: &[u8], most: u16) -> Result<ToPosix, ShapeFault> {
    let names = Names::new(alloc);
    match parse_text(alloc, list) {
        Ok(list) => to_posix(alloc, &list.view(), &names, most),
        Err(_) => Err(ShapeFault::Memory),
    }
}

fn is_made(alloc: Global, list: &[u8], text: &[u8], exact: bool) -> Result<bool, PushFault> {
    let wanted = acl_of(alloc, text)?;
    let made = kept(converted(alloc, list, 4))?;
    Ok(made.acl == wanted && made.exact() == exact)
}

/// Checks that each list has the ACL of its row.
pub fn check_conversions(rt: &impl Abort, alloc: Global) -> Result<(), PushFault> {
    for (list, text, exact) in ROWS {
        assert!(rt; is_made(alloc, list, text, exact)?);
    }
    Ok(())
}

#[test]
fn each_list_has_the_posix_acl_of_its_row(rt: HostRuntime) {
    assert!(rt; passes(check_conversions(&rt, rt.alloc())));
}

#[test]
fn an_unknown_name_and_too_many_names_are_refused(rt: HostRuntime) {
    let alloc = rt.alloc();
    let unnamed = converted(alloc, b"ALLOW - READ_DATA 7\nDENY GROUP READ_DATA staff", 0);
    assert!(rt; matches!(&unnamed, Err(ShapeFault::NoId(1) | ShapeFault::Memory)));
    let large = converted(alloc, ALL_GO, 3);
    assert!(rt; matches!(&large, Err(ShapeFault::TooManyNames | ShapeFault::Memory)));
}

mod ample {
    use super::*;
    use std::test::Fail;

    // A user and a group of one id are two names. ACEs without a right of a permission, for new objects, or of a name
    // that another ACE has, count no name.
    const THREE_NAMES: &[u8] = b"ALLOW - READ_DATA 7
ALLOW - READ_DATA EVERYONE@
DENY GROUP READ_DATA 7
ALLOW - EXECUTE 7
DENY - DELETE 5
ALLOW INHERITONLY READ_DATA 1
ALLOW GROUP WRITE_DATA 9
DENY GROUP EXECUTE 9
";

    // A list, and how many users and groups it names.
    const COUNTS: [(&[u8], u16); 4] = [(b"", 0), (NEEDLESS, 1), (THREE_NAMES, 3), (ALL_GO, 4)];

    #[test]
    fn a_list_has_an_acl_if_its_names_are_within_the_bound(rt: HostRuntime) -> Result<(), Fail> {
        let alloc = rt.alloc();
        for (list, count) in COUNTS {
            assert!(rt; converted(alloc, list, count).is_ok());
            if count > 0 {
                let refused = converted(alloc, list, count.saturating_sub(1));
                assert!(rt; matches!(&refused, Err(ShapeFault::TooManyNames)));
            }
        }
        Ok(())
    }
}
