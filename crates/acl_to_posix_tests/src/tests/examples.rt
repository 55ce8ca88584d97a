//! The examples in the doc comments of the calls: each comment's lines are in one of these tests, in order. What a list
//! grants is worked by hand from RFC 8881, section 6.2.1, and what a POSIX ACL grants from acl(5), "ACCESS CHECK
//! ALGORITHM".

use acl_nfs4::parse_text;
use acl_perm::{Mode, Perm};
use acl_posix::{Names, PosixAcl, Tag};
use acl_to_posix::*;
use std::test::Fail;

#[test]
fn a_denial_that_nothing_needs_is_left_out(rt: HostRuntime) -> Result<(), Fail> {
    let alloc = rt.alloc();
    let list = parse_text(
        alloc,
        b"ALLOW - READ_DATA OWNER@\nALLOW - READ_DATA GROUP@\nDENY - READ_DATA 1000",
    )?;
    let made = to_posix(alloc, &list.view(), &Names::new(alloc), 256)?;
    assert!(rt; made.exact() && made.acl.get(Tag::GroupObj) == Some(Perm::READ));
    Ok(())
}

#[test]
fn a_member_of_two_groups_loses_write(rt: HostRuntime) -> Result<(), Fail> {
    let alloc = rt.alloc();
    let list = parse_text(
        alloc,
        b"ALLOW GROUP WRITE_DATA 5\nALLOW GROUP APPEND_DATA 7",
    )?;
    let acl = PosixAcl::of_mode(alloc, Mode { bits: 0 })?;
    let lost = lost_grant(alloc, &list.view(), &acl, &Names::new(alloc), 256)?;
    assert!(rt; lost.is_some_and(|lost| lost.perm == Perm::WRITE && lost.groups.len() == 2));
    Ok(())
}
