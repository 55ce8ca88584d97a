//! Groups that stand for unknown special identifiers (RFC 8881, section 6.2.1.5), which is this library's own. The
//! bytes are in the layout of RFC 4506 over RFC 8881, section 6.2.1, and the lists are worked by hand, ACE by ACE.

use acl_nfs4::*;
use std::test::Fail;

// AUDIT for bob, DENY INTERACTIVE@, ALLOW OWNER@ and ALLOW for the user bob, each of READ_DATA.
static LIST: &[u8; 96] = b"\0\0\0\x04\
    \0\0\0\x02\0\0\0\x10\0\0\0\x01\0\0\0\x03bob\0\
    \0\0\0\x01\0\0\0\x01\0\0\0\x01\0\0\0\x0cINTERACTIVE@\
    \0\0\0\0\0\0\0\x01\0\0\0\x01\0\0\0\x06OWNER@\0\0\
    \0\0\0\0\0\0\0\0\0\0\0\x01\0\0\0\x03bob\0\
    ";

// ALLOW for the group @, for the user @? and, in the second list, for the group @?, each of READ_DATA.
static SHORT: [&[u8]; 2] = [
    b"\0\0\0\x02\
    \0\0\0\0\0\0\0\0\0\0\0\x01\0\0\0\x02@?\0\0\
    \0\0\0\0\0\0\0\0\0\0\0\x01\0\0\0\x01@\0\0\0",
    b"\0\0\0\x02\
    \0\0\0\0\0\0\0\x40\0\0\0\x01\0\0\0\x02@?\0\0\
    \0\0\0\0\0\0\0\0\0\0\0\x01\0\0\0\x01@\0\0\0",
];

mod ample {
    use super::*;

    #[test]
    fn groups_stand_for_identifiers(rt: HostRuntime) -> Result<(), Fail> {
        let alloc = rt.alloc();
        let made = AccessPart::parse_whole(alloc, LIST)?.with_groups(alloc, b"?")?;
        let text = b"DENY FILE|GROUP READ_DATA INTERACTIVE@?\nALLOW FILE READ_DATA OWNER@\n\
            ALLOW - READ_DATA bob\n";
        assert!(rt; made == parse_text(alloc, text)?);
        Ok(())
    }

    #[test]
    fn suffixes_that_make_no_name_are_refused(rt: HostRuntime) -> Result<(), Fail> {
        let alloc = rt.alloc();
        let part = AccessPart::parse_whole(alloc, LIST)?;
        let long = [b'?'; 1013];
        let rows: [&[u8]; 5] = [b"", b"?@", b"\n", b"\xff", &long];
        for suffix in rows {
            let found = part.with_groups(alloc, suffix).err();
            assert!(rt; found == Some(GroupsFault::Name(0)));
        }
        assert!(rt; part.with_groups(alloc, &long[1..])?.len() == 3);
        Ok(())
    }

    #[test]
    fn only_another_group_of_that_name_is_refused(rt: HostRuntime) -> Result<(), Fail> {
        let alloc = rt.alloc();
        let [user, group] = SHORT;
        let part = AccessPart::parse_whole(alloc, user)?;
        assert!(rt; part.with_groups(alloc, b"?")?.len() == 2);
        let part = AccessPart::parse_whole(alloc, group)?;
        assert!(rt; part.with_groups(alloc, b"?").err() == Some(GroupsFault::Merged(0)));
        assert!(rt; part.with_groups(alloc, b"??")?.len() == 2);
        Ok(())
    }
}
