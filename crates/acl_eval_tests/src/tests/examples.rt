//! The examples in the doc comments of the calls: each comment's lines are in one of these tests, in order. What a list
//! grants is worked by hand from RFC 8881, section 6.2.1, its mode from sections 6.3.2 and 6.4.1.1, and what a new file
//! inherits from docs/reference/lists.md, "Creation", and section 6.4.3.2. What a POSIX ACL grants is worked from
//! acl(5), "ACCESS CHECK ALGORITHM", and its list from docs/reference/lists.md, "From POSIX to NFSv4". Which names and
//! groups are refused is this library's own.

use acl_eval::*;
use acl_nfs4::parse_text;
use acl_perm::Mask;
use acl_posix::{Names, parse};
use std::test::Fail;

// The examples of `grants`, `granted` and `decided`.
#[test]
fn an_allow_grants_one_right_and_a_deny_decides_another(rt: HostRuntime) -> Result<(), Fail> {
    let alloc = rt.alloc();
    let list = parse_text(alloc, b"ALLOW - READ_DATA bob\nDENY - WRITE_DATA bob")?;
    let object = Object::new(b"alice", b"staff").ok_or("a name is empty")?;
    let bob = Requester::new(b"bob", &[]).ok_or("a name is empty")?;
    assert!(rt; grants(list.aces(), &object, &bob, Mask::READ_DATA));
    assert!(rt; !grants(list.aces(), &object, &bob, Mask::ALL));
    let rights = granted(list.aces(), &object, &bob, Mask::ALL);
    assert!(rt; rights == Mask::READ_DATA);
    let rights = decided(list.aces(), &object, &bob, Mask::ALL);
    assert!(rt; rights.allowed == Mask::READ_DATA && rights.denied == Mask::WRITE_DATA);
    Ok(())
}

#[test]
fn a_group_that_is_denied_is_found_in_the_table(rt: HostRuntime) -> Result<(), Fail> {
    let alloc = rt.alloc();
    let list = parse_text(
        alloc,
        b"DENY GROUP WRITE_DATA staff\nALLOW - WRITE_DATA EVERYONE@",
    )?;
    let object = Object::new(b"alice", b"staff").ok_or("a name is empty")?;
    let bob = Requester::new(b"bob", &[b"users", b"staff"]).ok_or("a name is empty")?;
    let may_write = grants_for_many_groups(alloc, &list.view(), &object, &bob, Mask::WRITE_DATA)?;
    assert!(rt; !may_write);
    let sorted = SortedRequester::new(alloc, bob, list.len())?;
    let rights = decided(list.aces(), &object, &sorted.requester(), Mask::ALL);
    assert!(rt; rights.denied == Mask::WRITE_DATA);
    Ok(())
}

#[test]
fn a_file_inherits_the_ace_with_file_inherit(rt: HostRuntime) -> Result<(), Fail> {
    let alloc = rt.alloc();
    let parent = parse_text(alloc, b"ALLOW FILE READ_DATA bob\nDENY - WRITE_DATA bob")?;
    let list = child(alloc, &parent, ChildKind::File)?;
    assert!(rt; list == parse_text(alloc, b"ALLOW - READ_DATA bob")?);
    Ok(())
}

#[test]
fn an_inherited_ace_is_marked(rt: HostRuntime) -> Result<(), Fail> {
    let alloc = rt.alloc();
    let parent = parse_text(alloc, b"ALLOW FILE READ_DATA bob\nDENY - WRITE_DATA bob")?;
    let list = inherited_child(alloc, &parent.view(), ChildKind::File)?;
    assert!(rt; list == parse_text(alloc, b"ALLOW INHERITED READ_DATA bob")?);
    Ok(())
}

#[test]
fn reading_and_executing_for_everyone_is_mode_555(rt: HostRuntime) -> Result<(), Fail> {
    let alloc = rt.alloc();
    let list = parse_text(alloc, b"ALLOW - READ_DATA|EXECUTE EVERYONE@")?;
    let mode = mode_of(list.aces());
    assert_eq!(rt; mode.bits(), 0o555);
    Ok(())
}

#[test]
fn the_list_of_an_acl_has_the_mode_of_the_acl(rt: HostRuntime) -> Result<(), Fail> {
    let alloc = rt.alloc();
    let file = parse(alloc, b"u::rw-,g::r--,o::---", &Names::new(alloc))?;
    let list = bridge(alloc, &file.access)?;
    assert_eq!(rt; mode_of(list.aces()).bits(), 0o640);
    Ok(())
}

#[test]
fn an_object_has_an_owner_and_a_group(rt: HostRuntime) {
    let object = Object::new(b"alice", b"staff");
    assert!(rt; object.is_some());
    assert!(rt; Object::new(b"alice", b"").is_none());
}

#[test]
fn no_group_of_a_requester_has_an_empty_name(rt: HostRuntime) {
    let requester = Requester::new(b"bob", &[b"staff", b"users"]);
    assert!(rt; requester.is_some());
    assert!(rt; Requester::new(b"bob", &[b""]).is_none());
    let requester = Requester::for_many_lists(b"bob", &[b"staff", b"users"]);
    assert!(rt; requester.is_some());
    let requester = Requester::in_order(b"bob", &[b"staff", b"users"]);
    assert!(rt; requester.is_some());
    assert!(rt; Requester::in_order(b"bob", &[b""]).is_none());
}
