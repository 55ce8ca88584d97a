//! Which names have an id, and which id it is: this library's own rule, that of `aclck_prepare_ids` in
//! include/aclck.h.

use acl_ids::*;
use acl_nfs4::parse_text;
use acl_perm::Principal;
use acl_posix::{Id, Names};
use std::alloc::Global;
use std::test::Fail;

// The table of the tests: the user bob is 7, and the group bob is 8.
fn table(alloc: Global) -> Result<Names, Fail> {
    let mut names = Names::new(alloc);
    names.add_user(b"bob", Id { value: 7 })?;
    names.add_group(b"bob", Id { value: 8 })?;
    Ok(names)
}

// A name, and its id as a user and as a group.
static IDS: [(&[u8], Option<u32>, Option<u32>); 9] = [
    (b"bob", Some(7), Some(8)),
    (b"eve", None, None),
    (b"7", Some(7), Some(7)),
    (b"0", Some(0), Some(0)),
    (b"4294967294", Some(4_294_967_294), Some(4_294_967_294)),
    // The greatest number is no id, and digits have no sign and no further 0 in front.
    (b"4294967295", None, None),
    (b"+7", None, None),
    (b"07", None, None),
    (b"00", None, None),
];

// Lists, and the place of the first ACE that names a user or a group without an id.
static UNKNOWN: [(&str, Option<usize>); 4] = [
    ("", None),
    (
        "ALLOW - READ_DATA bob\nALLOW GROUP READ_DATA bob\nALLOW - READ_DATA 9",
        None,
    ),
    (
        "ALLOW - READ_DATA OWNER@\nDENY GROUP READ_DATA GROUP@\nALLOW - READ_DATA EVERYONE@",
        None,
    ),
    (
        "ALLOW - READ_DATA bob\nALLOW GROUP|FILE|INHERITONLY READ_DATA eve\nALLOW - READ_DATA 07",
        Some(1),
    ),
];

mod ample {
    use super::*;

    #[test]
    fn a_name_has_the_id_of_the_table_or_of_its_digits(rt: HostRuntime) -> Result<(), Fail> {
        let names = table(rt.alloc())?;
        for (name, user, group) in IDS {
            assert!(rt; user_id(&names, name).map(|id| id.value) == user);
            assert!(rt; group_id(&names, name).map(|id| id.value) == group);
            assert!(rt; principal_id(&names, Principal::User(name)).map(|id| id.value) == user);
            assert!(rt;
                principal_id(&names, Principal::GroupNamed(name)).map(|id| id.value) == group
            );
        }
        assert!(rt; principal_id(&names, Principal::Everyone).is_none());
        Ok(())
    }

    #[test]
    fn the_first_name_without_an_id_is_found(rt: HostRuntime) -> Result<(), Fail> {
        let names = table(rt.alloc())?;
        for (text, place) in UNKNOWN {
            let list = parse_text(rt.alloc(), text.as_bytes())?;
            assert!(rt; first_unknown(&list.view(), &names) == place, "{text}");
        }
        Ok(())
    }
}
