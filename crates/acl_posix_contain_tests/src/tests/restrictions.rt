//! What an ACL keeps under a bound: worked ACLs. A permission of an entry goes if the entry grants it to somebody whom
//! the bound denies it (acl(5), "ACCESS CHECK ALGORITHM").

use acl_posix::{Names, PosixAcl, TextFault, parse};
use acl_posix_contain::restricted;
use std::alloc::{AllocError, Global};
use std::process::Abort;

// An ACL, a bound, and what the ACL keeps.
static ROWS: [(&[u8], &[u8], &[u8]); 14] = [
    // Each permission by itself.
    (
        b"u::rwx,g::rw-,o::r--",
        b"u::r-x,g::r--,o::-w-",
        b"u::r-x,g::r--,o::---",
    ),
    // The bound grants a user who has no entry there what all groups and OTHER have.
    (
        b"u::---,u:7:rwx,g::---,m::rwx,o::---",
        b"u::---,g::rw-,o::rwx",
        b"u::---,u:7:rw-,g::---,m::rwx,o::---",
    ),
    // A user may be in a group that the bound denies.
    (
        b"u::---,u:7:r--,g::---,m::r--,o::---",
        b"u::---,g::r--,g:9:---,m::r--,o::r--",
        b"u::---,u:7:---,g::---,m::r--,o::---",
    ),
    // So may a member of a group of which the bound has no entry, but not of one that it grants.
    (
        b"u::---,g::---,g:5:r--,g:6:r--,m::r--,o::---",
        b"u::---,g::r--,g:6:r--,g:9:---,m::r--,o::r--",
        b"u::---,g::---,g:5:---,g:6:r--,m::r--,o::---",
    ),
    // A member of group 9 is somebody else for the ACL, which has no entry of the group.
    (
        b"u::---,g::---,o::r--",
        b"u::---,g::---,g:9:---,m::r--,o::r--",
        b"u::---,g::---,o::---",
    ),
    (
        b"u::---,g::---,g:9:---,m::---,o::r--",
        b"u::---,g::---,g:9:---,m::r--,o::r--",
        b"u::---,g::---,g:9:---,m::---,o::r--",
    ),
    // A user whom the bound names may be in the owning group or in none.
    (
        b"u::---,g::r--,o::r--",
        b"u::---,u:7:---,g::r--,m::r--,o::r--",
        b"u::---,g::---,o::---",
    ),
    (
        b"u::---,u:7:---,g::r--,m::r--,o::r--",
        b"u::---,u:7:---,g::r--,m::r--,o::r--",
        b"u::---,u:7:---,g::r--,m::r--,o::r--",
    ),
    // The owner is not asked for a USER entry, and a user who has one can be the owner.
    (
        b"u::r--,u:7:r--,g::---,m::r--,o::---",
        b"u::r--,u:7:---,g::---,m::r--,o::---",
        b"u::r--,u:7:---,g::---,m::r--,o::---",
    ),
    // MASK of the ACL hides w, so nobody gets it and it stays. MASK of the bound hides r.
    (
        b"u::---,u:7:rw-,g::-w-,m::r--,o::---",
        b"u::---,u:7:---,g::---,m::---,o::---",
        b"u::---,u:7:-w-,g::-w-,m::r--,o::---",
    ),
    (
        b"u::---,u:7:r--,g::r--,m::r--,o::---",
        b"u::---,u:7:r--,g::r--,m::---,o::---",
        b"u::---,u:7:---,g::---,m::r--,o::---",
    ),
    // The owning group is not group 5 for each object.
    (
        b"u::---,g::r--,g:5:-w-,m::rw-,o::---",
        b"u::---,g::-w-,g:5:r--,m::rw-,o::---",
        b"u::---,g::---,g:5:---,m::rw-,o::---",
    ),
    // A group without a permission keeps no other one from granting it.
    (
        b"u::---,g::r--,g:5:---,m::r--,o::---",
        b"u::---,g::r--,g:5:---,m::r--,o::---",
        b"u::---,g::r--,g:5:---,m::r--,o::---",
    ),
    (
        b"u::rwx,g::rwx,o::rwx",
        b"u::rwx,g::rwx,o::rwx",
        b"u::rwx,g::rwx,o::rwx",
    ),
];

fn read(alloc: Global, text: &[u8]) -> Result<PosixAcl, TextFault> {
    let names = Names::new(alloc);
    Ok(parse(alloc, text, &names)?.access)
}

// Whether an ACL keeps what is expected.
fn is_kept(alloc: Global, list: &[u8], limit: &[u8], expected: &[u8]) -> Result<bool, TextFault> {
    let acl = read(alloc, list)?;
    let bound = read(alloc, limit)?;
    let wanted = read(alloc, expected)?;
    match restricted(alloc, &acl, &bound) {
        Ok(kept) => Ok(kept == wanted),
        Err(AllocError) => Ok(true),
    }
}

#[test]
fn an_acl_keeps_most_under_a_bound(rt: HostRuntime) {
    for (list, limit, expected) in &ROWS {
        match is_kept(rt.alloc(), list, limit, expected) {
            Ok(kept) => assert!(rt; kept),
            Err(fault) => assert!(rt; fault == TextFault::Memory),
        }
    }
}

mod ample {
    use super::*;

    #[test]
    fn each_worked_acl_keeps_most_if_memory_is_ample(rt: HostRuntime) -> Result<(), TextFault> {
        for (list, limit, expected) in &ROWS {
            let acl = read(rt.alloc(), list)?;
            let bound = read(rt.alloc(), limit)?;
            let kept = restricted(rt.alloc(), &acl, &bound);
            assert!(rt; kept.is_ok_and(|acl| read(rt.alloc(), expected) == Ok(acl)));
        }
        Ok(())
    }
}
