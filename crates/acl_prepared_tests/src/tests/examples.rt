//! The examples in the doc comments of the calls: each comment's lines are in one of these tests, in order. What a list
//! grants is worked by hand from RFC 8881, section 6.2.1. Which groups are refused is this library's own.

use acl_eval::{Object, Requester};
use acl_nfs4::parse_text;
use acl_perm::Mask;
use acl_posix::{Id, Names};
use acl_prepared::*;
use std::test::Fail;

#[test]
fn a_prepared_list_decides_as_the_list(rt: HostRuntime) -> Result<(), Fail> {
    let alloc = rt.alloc();
    let list = parse_text(alloc, b"ALLOW - READ_DATA bob\nDENY - WRITE_DATA bob")?;
    let bytes = prepare(alloc, &list.view())?;
    let prepared = Prepared::read(&bytes).ok_or("not prepared")?;
    let object = Object::new(b"alice", b"staff").ok_or("a name is empty")?;
    let bob = Requester::new(b"bob", &[]).ok_or("a name is empty")?;
    let rights = prepared
        .decided(&object, &bob, Mask::ALL)
        .ok_or("not prepared")?;
    assert!(rt; rights.allowed == Mask::READ_DATA && rights.denied == Mask::WRITE_DATA);
    Ok(())
}

#[test]
fn a_list_of_ids_decides_by_ids(rt: HostRuntime) -> Result<(), Fail> {
    let alloc = rt.alloc();
    let list = parse_text(
        alloc,
        b"DENY GROUP WRITE_DATA staff\nALLOW - READ_DATA|WRITE_DATA 1000",
    )?;
    let mut names = Names::new(alloc);
    names.add_group(b"staff", Id { value: 50 })?;
    let bytes = prepare_ids(alloc, &list.view(), &names)?;
    let prepared = PreparedIds::read(&bytes).ok_or("not prepared")?;
    let object = IdObject { owner: 0, group: 0 };
    let bob = IdRequester::new(1000, &[50]).ok_or("the groups do not rise")?;
    let rights = prepared
        .decided(object, &bob, Mask::ALL)
        .ok_or("not prepared")?;
    assert!(rt; rights.allowed == Mask::READ_DATA && rights.denied == Mask::WRITE_DATA);
    Ok(())
}

#[test]
fn the_groups_of_a_requester_rise(rt: HostRuntime) {
    assert!(rt; IdRequester::new(1000, &[27, 100]).is_some());
    assert!(rt; IdRequester::new(1000, &[27, 27]).is_none());
}
