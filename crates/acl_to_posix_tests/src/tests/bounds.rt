//! Lists that name more users and groups than the bound. They are refused for their names, also if memory runs out
//! while the names are collected. The bytes are worked by hand from RFC 7531 (`nfsace4`), and so are the numbers of
//! names.

use acl_nfs4::AclView;
use acl_perm::Mode;
use acl_posix::{Names, PosixAcl};
use acl_to_posix::{ShapeFault, lost_grant, to_posix};
use std::test::Fail;

// Two users and two groups: 7 and the greatest id are users, and 5 and 7 are groups. An ACE names 7 again, and the last
// one has no right of a permission.
const FOUR_NAMES: &[u8] = b"\0\0\0\x06\
    \0\0\0\0\0\0\0\0\0\0\0\x01\0\0\0\x017\0\0\0\
    \0\0\0\x01\0\0\0\x40\0\0\0\x01\0\0\0\x017\0\0\0\
    \0\0\0\0\0\0\0\0\0\0\0\x20\0\0\0\x017\0\0\0\
    \0\0\0\0\0\0\0\x40\0\0\0\x01\0\0\0\x015\0\0\0\
    \0\0\0\0\0\0\0\0\0\0\0\x01\0\0\0\x0a4294967294\0\0\
    \0\0\0\x01\0\0\0\0\0\x01\0\0\0\0\0\x018\0\0\0";

// Three users, from the greatest to the least.
const THREE_USERS: &[u8] = b"\0\0\0\x03\
    \0\0\0\0\0\0\0\0\0\0\0\x01\0\0\0\x019\0\0\0\
    \0\0\0\0\0\0\0\0\0\0\0\x01\0\0\0\x014\0\0\0\
    \0\0\0\0\0\0\0\0\0\0\0\x01\0\0\0\x010\0\0\0";

// A list, and how many users and groups it names.
const LISTS: [(&[u8], u16); 2] = [(FOUR_NAMES, 4), (THREE_USERS, 3)];

// The entries of an ACL without USER and GROUP entries count too.
const ENTRIES: u16 = 3;

fn is_above<T>(answer: &Result<T, ShapeFault>) -> bool {
    matches!(answer, Err(ShapeFault::TooManyNames))
}

fn is_within<T>(answer: &Result<T, ShapeFault>) -> bool {
    matches!(answer, Ok(_) | Err(ShapeFault::Memory))
}

#[test]
fn a_list_above_the_bound_is_refused_for_its_names(rt: HostRuntime) -> Result<(), Fail> {
    let (alloc, names) = (rt.alloc(), Names::new(rt.alloc()));
    for (bytes, count) in LISTS {
        let list = AclView::parse_whole(bytes)?;
        for most in 0..count {
            assert!(rt; is_above(&to_posix(alloc, &list, &names, most)));
        }
        assert!(rt; is_within(&to_posix(alloc, &list, &names, count)));
    }
    Ok(())
}

#[test]
fn no_loss_is_sought_above_the_bound(rt: HostRuntime) -> Result<(), Fail> {
    let (alloc, names) = (rt.alloc(), Names::new(rt.alloc()));
    let Ok(acl) = PosixAcl::of_mode(alloc, Mode::NONE) else {
        return Ok(());
    };
    for (bytes, count) in LISTS {
        let list = AclView::parse_whole(bytes)?;
        let together = count.saturating_add(ENTRIES);
        for most in 0..together {
            assert!(rt; is_above(&lost_grant(alloc, &list, &acl, &names, most)));
        }
        assert!(rt; is_within(&lost_grant(alloc, &list, &acl, &names, together)));
    }
    Ok(())
}
