//! The examples in the doc comments of the calls: each comment's lines are in one of these tests, in order. A mode is
//! worked by hand from RFC 8881, sections 6.3.2 and 6.4.1.1.

use acl_change::*;
use acl_eval::{Object, mode_of};
use acl_nfs4::parse_text;
use acl_perm::Mode;
use std::test::Fail;

#[test]
fn a_list_has_the_mode_after_its_change(rt: HostRuntime) -> Result<(), Fail> {
    let alloc = rt.alloc();
    let list = parse_text(alloc, b"ALLOW - READ_DATA bob\nALLOW - READ_DATA EVERYONE@")?;
    let mode = Mode::new(0o640).ok_or("no mode")?;
    let changed = chmod(alloc, &list.view(), mode)?;
    assert!(rt; mode_of(changed.aces()) == mode);
    Ok(())
}

#[test]
fn the_owner_and_the_owning_group_of_an_object_are_named(rt: HostRuntime) -> Result<(), Fail> {
    let alloc = rt.alloc();
    let list = parse_text(alloc, b"ALLOW - READ_DATA OWNER@\nDENY - WRITE_DATA GROUP@")?;
    let object = Object::new(b"alice", b"staff").ok_or("a name is empty")?;
    let named = resolved(alloc, &list.view(), &object)?;
    let text = b"ALLOW - READ_DATA alice\nDENY GROUP WRITE_DATA staff";
    assert!(rt; named == parse_text(alloc, text)?);
    Ok(())
}
