//! The examples of the doc comments: one test per example, with the same lines in the same order. The expected values
//! are worked by hand: what an ACL grants from acl(5), "ACCESS CHECK ALGORITHM", its mode and its mask from
//! "CORRESPONDENCE BETWEEN ACL ENTRIES AND FILE PERMISSION BITS", a new ACL from "OBJECT CREATION AND DEFAULT ACLs",
//! and texts from "LONG TEXT FORM". The bytes of the attribute are those of include/uapi/linux/posix_acl_xattr.h.

use acl_perm::{Counted, Mode, Perm};
use acl_posix::*;
use std::test::Fail;

#[test]
fn an_acl_is_made_of_entries_in_any_order(rt: HostRuntime) -> Result<(), Fail> {
    let alloc = rt.alloc();
    let perm = Perm::ALL;
    let mut entries = Vec::new(alloc);
    for tag in [Tag::Other, Tag::UserObj, Tag::GroupObj] {
        entries.push(Entry { tag, perm })?;
    }
    let acl = PosixAcl::from_entries(alloc, entries)?;
    assert!(rt; acl.mode().bits == 0o777);
    Ok(())
}

#[test]
fn a_text_without_default_entries_is_read_as_an_access_acl(rt: HostRuntime) -> Result<(), Fail> {
    let alloc = rt.alloc();
    let names = Names::new(alloc);
    let file = parse(alloc, b"u::rw-,u:7:r--,g::---,m::r--,o::---", &names)?;
    assert!(rt; file.access.get(Tag::Mask) == Perm::new(4));
    assert!(rt; file.default.is_none());
    Ok(())
}

#[test]
fn a_view_of_entries_has_their_mode(rt: HostRuntime) -> Result<(), Fail> {
    let raws = [
        RawEntry {
            tag: 1,
            id: 0,
            perm: 6,
        },
        RawEntry {
            tag: 3,
            id: 0,
            perm: 4,
        },
        RawEntry {
            tag: 6,
            id: 0,
            perm: 0,
        },
    ];
    let acl = EntriesView::new(&raws).ok().ok_or("a valid list")?;
    assert!(rt; acl.mode().bits == 0o640);
    Ok(())
}

#[test]
fn a_member_of_the_owning_group_may_read_and_another_user_may_not(
    rt: HostRuntime,
) -> Result<(), Fail> {
    let alloc = rt.alloc();
    let acl = PosixAcl::of_mode(alloc, Mode { bits: 0o640 })?;
    let (owner, group, user) = (Id { value: 0 }, Id { value: 50 }, Id { value: 7 });
    let read = Perm { bits: 4 };
    assert!(rt; acl.check(owner, group, user, &[group], read));
    assert!(rt; !acl.check(owner, group, user, &[], read));
    Ok(())
}

#[test]
fn a_mode_that_is_set_without_a_mask_sets_the_owning_group(rt: HostRuntime) -> Result<(), Fail> {
    let alloc = rt.alloc();
    let mut acl = PosixAcl::of_mode(alloc, Mode { bits: 0o644 })?;
    acl.chmod(Mode { bits: 0o600 });
    assert!(rt; acl.get(Tag::GroupObj) == Some(Perm::NONE));
    Ok(())
}

#[test]
fn the_umask_cuts_the_mode_of_a_new_file(rt: HostRuntime) -> Result<(), Fail> {
    let alloc = rt.alloc();
    let mode = Mode { bits: 0o666 };
    let umask = Mode { bits: 0o022 };
    let file = create(alloc, None, mode, umask, false)?;
    assert!(rt; file.access.mode().bits == 0o644);
    Ok(())
}

#[test]
fn an_acl_is_written_with_one_line_per_entry(rt: HostRuntime) -> Result<(), Fail> {
    let alloc = rt.alloc();
    let acl = PosixAcl::of_mode(alloc, Mode { bits: 0o640 })?;
    let mut sink = Counted::new(Vec::new(alloc));
    acl.write_canonical(&mut sink)?;
    let text = sink.into_inner();
    let wanted = b"user::rw-\ngroup::r--\nother::---\n";
    assert!(rt; text.as_slice() == wanted.as_slice());
    Ok(())
}

#[test]
fn a_user_name_is_added_once(rt: HostRuntime) -> Result<(), Fail> {
    let alloc = rt.alloc();
    let mut names = Names::new(alloc);
    let id = Id { value: 7 };
    names.add_user(b"bob", id)?;
    assert!(rt; names.user(b"bob") == Some(id));
    assert!(rt; names.add_user(b"bob", id) == Err(NameFault::Taken));
    Ok(())
}

#[test]
fn an_acl_is_made_of_plain_numbers(rt: HostRuntime) -> Result<(), Fail> {
    let alloc = rt.alloc();
    let mut raws = Vec::new(alloc);
    for (tag, perm) in [(1, 6), (3, 4), (6, 0)] {
        raws.push(RawEntry { tag, id: 0, perm })?;
    }
    let acl = PosixAcl::from_raw(alloc, &raws)?;
    assert!(rt; acl.mode().bits == 0o640);
    Ok(())
}

#[test]
fn an_attribute_is_read(rt: HostRuntime) -> Result<(), Fail> {
    let alloc = rt.alloc();
    let bytes =
        b"\x02\0\0\0\x01\0\x06\0\xff\xff\xff\xff\x04\0\x04\0\xff\xff\xff\xff\x20\0\0\0\xff\xff\xff\xff";
    let acl = PosixAcl::from_attribute(alloc, bytes)?;
    assert!(rt; acl == Some(PosixAcl::of_mode(alloc, Mode { bits: 0o640 })?));
    Ok(())
}

#[test]
fn an_attribute_that_is_written_reads_back(rt: HostRuntime) -> Result<(), Fail> {
    let alloc = rt.alloc();
    let acl = PosixAcl::of_mode(alloc, Mode { bits: 0o640 })?;
    let bytes = acl.to_attribute(alloc)?;
    assert!(rt; PosixAcl::from_attribute(alloc, &bytes)? == Some(acl));
    Ok(())
}

#[test]
fn a_list_without_a_mask_gets_one(rt: HostRuntime) -> Result<(), Fail> {
    let alloc = rt.alloc();
    let mut entries = Vec::new(alloc);
    let (bob, perm) = (Tag::User(Id { value: 7 }), Perm::READ);
    for tag in [Tag::UserObj, bob, Tag::GroupObj, Tag::Other] {
        entries.push(Entry { tag, perm })?;
    }
    let acl = PosixAcl::from_entries_with_mask(alloc, entries)?;
    assert!(rt; acl.get(Tag::Mask) == Some(Perm::READ));
    Ok(())
}

#[test]
fn the_entry_that_decides_is_named(rt: HostRuntime) -> Result<(), Fail> {
    let alloc = rt.alloc();
    let acl = PosixAcl::of_mode(alloc, Mode { bits: 0o640 })?;
    let (owner, group, user) = (Id { value: 0 }, Id { value: 50 }, Id { value: 7 });
    let decision = acl.deciding(owner, group, user, &[group], Perm { bits: 4 });
    assert!(rt; decision.granted && decision.entry == Some(Tag::GroupObj));
    let decision = acl.deciding(owner, group, user, &[group], Perm { bits: 2 });
    assert!(rt; !decision.granted && decision.entry == None);
    Ok(())
}

#[test]
fn another_user_may_read_under_one_acl_alone(rt: HostRuntime) -> Result<(), Fail> {
    let alloc = rt.alloc();
    let first = PosixAcl::of_mode(alloc, Mode { bits: 0o644 })?;
    let second = PosixAcl::of_mode(alloc, Mode { bits: 0o640 })?;
    assert!(rt; second.excess(&first).is_none());
    let found = first.excess(&second).ok_or("others may read")?;
    assert!(rt; found.request == Perm::READ && found.groups == FewGroups::None);
    Ok(())
}
