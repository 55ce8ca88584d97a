//! The list for one object. The lists are worked by hand, line by line; a name that no ACE can have is one of RFC 8881,
//! section 6.2.1.5, or breaks a limit of this library.

use acl_change::*;
use acl_eval::{Object, Requester, granted};
use acl_nfs4::{LONGEST_WHO, parse_text};
use acl_perm::Mask;
use std::test::Fail;

mod ample {
    use super::*;

    const LIST: &[u8] = b"ALLOW - READ_DATA bob\nALLOW FILE|INHERITONLY READ_DATA OWNER@\n\
        DENY GROUP WRITE_DATA OWNER@\nDENY FAILED WRITE_DATA GROUP@\nALLOW GROUP READ_DATA GROUP@\n\
        ALLOW GROUP READ_DATA alice\nALLOW - EXECUTE EVERYONE@\n";

    const FOR_ALICE: &[u8] = b"ALLOW - READ_DATA bob\nALLOW FILE|INHERITONLY READ_DATA alice\n\
        DENY - WRITE_DATA alice\nDENY FAILED|GROUP WRITE_DATA staff\nALLOW GROUP READ_DATA staff\n\
        ALLOW GROUP READ_DATA alice\nALLOW - EXECUTE EVERYONE@\n";

    #[test]
    fn owner_and_owning_group_are_named(rt: HostRuntime) -> Result<(), Fail> {
        let alloc = rt.alloc();
        let object = Object::new(b"alice", b"staff").ok_or("a name is empty")?;
        let list = parse_text(alloc, LIST)?;
        let named = resolved(alloc, &list.view(), &object)?;
        assert!(rt; named == parse_text(alloc, FOR_ALICE)?);
        Ok(())
    }

    #[test]
    fn it_grants_the_same_for_any_object(rt: HostRuntime) -> Result<(), Fail> {
        let alloc = rt.alloc();
        let object = Object::new(b"alice", b"staff").ok_or("a name is empty")?;
        let other = Object::new(b"bob", b"users").ok_or("a name is empty")?;
        let list = parse_text(alloc, b"ALLOW - READ_DATA OWNER@\nALLOW - EXECUTE GROUP@")?;
        let named = resolved(alloc, &list.view(), &object)?;
        let rows: [(&[u8], &[u8], u32); 4] = [
            (b"alice", b"staff", 0x21),
            (b"alice", b"users", 0x01),
            (b"bob", b"staff", 0x20),
            (b"bob", b"users", 0x00),
        ];
        for (user, group, rights) in rows {
            let groups = [group];
            let requester = Requester::new(user, &groups).ok_or("a name is empty")?;
            for asked in [object, other] {
                let found = granted(named.aces(), &asked, &requester, Mask::ALL);
                assert_eq!(rt; found.bits(), rights);
            }
        }
        Ok(())
    }

    #[test]
    fn a_name_that_no_ace_can_have_is_refused(rt: HostRuntime) -> Result<(), Fail> {
        let alloc = rt.alloc();
        let long = [b'x'; LONGEST_WHO + 1];
        let names: [&[u8]; 6] = [
            &long,
            b"\xff",
            b"a\n",
            b"\x7f",
            b"EVERYONE@",
            b"INTERACTIVE@",
        ];
        let list = parse_text(alloc, b"ALLOW - READ_DATA bob\nALLOW - READ_DATA OWNER@")?;
        for name in names {
            let object = Object::new(name, b"staff").ok_or("a name is empty")?;
            let found = resolved(alloc, &list.view(), &object).err();
            assert!(rt; found == Some(ResolveFault::Name(1)));
            // No ACE needs the name of the owning group.
            let object = Object::new(b"alice", name).ok_or("a name is empty")?;
            assert!(rt; resolved(alloc, &list.view(), &object).is_ok());
        }
        Ok(())
    }
}
