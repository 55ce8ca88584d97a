//! Lists whose users and groups are ids: what such a list decides is by RFC 8881, section 6.2.1, and which names have
//! an id is this library's own.

use Answer::{Allowed, Denied, Neither};
use acl_ids::IdsFault;
use acl_lists_for_tests::{ALLOW, DENY, built, passes};
use acl_nfs4::PushFault;
use acl_perm::Mask;
use acl_posix::{Id, Names};
use acl_prepared::{IdObject, IdRequester, PreparedIds, prepare_ids};
use std::alloc::Global;
use std::process::Abort;
use std::test::Fail;

const GROUP: u32 = 0x40;

const INHERIT_ONLY: u32 = 0x08;

// The table of the tests: the user bob is 7, and the group bob is 8.
fn table(alloc: Global) -> Result<Names, PushFault> {
    let mut names = Names::new(alloc);
    names
        .add_user(b"bob", Id { value: 7 })
        .map_err(|_| PushFault::Memory)?;
    names
        .add_group(b"bob", Id { value: 8 })
        .map_err(|_| PushFault::Memory)?;
    Ok(names)
}

// What a list decides about one right.
#[derive(Clone, Copy, Debug, PartialEq, Eq)]
enum Answer {
    Allowed,
    Denied,
    Neither,
}

// Whether an ACE with READ_DATA allows, its flags and its who, and what it decides about the right. The object is of the
// user 1 and the group 30. The requester is the user 7, first in the groups 10, 20, 30 and so on up to 170, and then in
// the first two of them alone.
static WHOS: [(bool, u32, &str, Answer, Answer); 14] = [
    (true, 0, "bob", Allowed, Allowed),
    (true, GROUP, "bob", Neither, Neither),
    (false, 0, "7", Denied, Denied),
    (true, 0, "8", Neither, Neither),
    (true, GROUP, "7", Neither, Neither),
    (true, GROUP, "10", Allowed, Allowed),
    (false, GROUP, "20", Denied, Denied),
    (true, GROUP, "170", Allowed, Neither),
    (true, GROUP, "175", Neither, Neither),
    (true, 0, "OWNER@", Neither, Neither),
    (true, 0, "GROUP@", Allowed, Neither),
    (true, 0, "EVERYONE@", Allowed, Allowed),
    (true, INHERIT_ONLY, "7", Neither, Neither),
    (true, 0, "4294967294", Neither, Neither),
];

static GROUPS: [u32; 17] = [
    10, 20, 30, 40, 50, 60, 70, 80, 90, 100, 110, 120, 130, 140, 150, 160, 170,
];

// Returns what is decided about READ_DATA, or `None` if the bytes are no prepared list.
fn decided(bytes: &[u8], groups: &[u32]) -> Option<Answer> {
    let prepared = PreparedIds::read(bytes)?;
    let object = IdObject {
        owner: 1,
        group: 30,
    };
    let requester = IdRequester::new(7, groups)?;
    let rights = prepared.decided(object, &requester, Mask::READ_DATA)?;
    Some(if rights.allowed == Mask::READ_DATA {
        Allowed
    } else if rights.denied == Mask::READ_DATA {
        Denied
    } else {
        Neither
    })
}

/// Checks whom each who matches.
pub fn check_ids(rt: &impl Abort, alloc: Global) -> Result<(), PushFault> {
    let names = table(alloc)?;
    for (allows, flags, who, many, two) in WHOS {
        let kind = if allows { ALLOW } else { DENY };
        let list = built(alloc, &[(kind, flags, 1, who.as_bytes())])?;
        let bytes = prepare_ids(alloc, &list.view(), &names).map_err(|_| PushFault::Memory)?;
        assert!(rt; decided(&bytes, &GROUPS) == Some(many), "{who}");
        assert!(rt; decided(&bytes, &GROUPS[..2]) == Some(two), "{who}");
    }
    Ok(())
}

/// Checks which names have no id: the place is that of the second ACE.
pub fn check_unknown(rt: &impl Abort, alloc: Global) -> Result<(), PushFault> {
    let names = table(alloc)?;
    for (flags, who) in [
        (0, "eve"),
        (GROUP, "eve"),
        (INHERIT_ONLY, "eve"),
        (0, "07"),
        (0, "00"),
        (0, "+7"),
        (0, "4294967295"),
        (0, "18446744073709551623"),
    ] {
        let list = built(
            alloc,
            &[(ALLOW, 0, 1, b"0"), (ALLOW, flags, 1, who.as_bytes())],
        )?;
        let fault = prepare_ids(alloc, &list.view(), &names).err();
        assert!(rt; fault == Some(IdsFault::UnknownName { place: 1 }), "{who}");
    }
    Ok(())
}

#[test]
fn a_who_matches_by_its_id(rt: HostRuntime) {
    assert!(rt; passes(check_ids(&rt, rt.alloc())));
}

#[test]
fn a_name_without_an_id_is_refused(rt: HostRuntime) {
    assert!(rt; passes(check_unknown(&rt, rt.alloc())));
}

#[test]
fn other_bytes_are_no_prepared_list_of_ids(rt: HostRuntime) -> Result<(), Fail> {
    assert!(rt; PreparedIds::read(b"aclpids").is_none());
    assert!(rt; PreparedIds::read(b"aclprep1").is_none());
    // A cut number, and a bit that is no right.
    for bytes in [
        b"aclpids1\x01\0\0".as_slice(),
        b"aclpids1\0\x08\0\0\x08\0\0\0".as_slice(),
    ] {
        assert!(rt; decided(bytes, &[]).is_none());
    }
    Ok(())
}

#[test]
fn groups_must_rise(rt: HostRuntime) {
    assert!(rt; IdRequester::new(7, &[]).is_some());
    assert!(rt; IdRequester::new(7, &[0, 1, 4_294_967_295]).is_some());
    assert!(rt; IdRequester::new(7, &[1, 1]).is_none());
    assert!(rt; IdRequester::new(7, &[1, 2, 0]).is_none());
}
