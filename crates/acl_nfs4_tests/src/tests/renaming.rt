//! Names of users and groups that are exchanged by a table. What a table does, and when it is refused, is this
//! library's own. The lists are worked by hand, line by line.

use acl_nfs4::*;
use std::test::Fail;

fn user(from: &'static [u8], to: &'static [u8]) -> Renaming<'static> {
    Renaming {
        from,
        to,
        is_group: false,
    }
}

fn group(from: &'static [u8], to: &'static [u8]) -> Renaming<'static> {
    Renaming {
        from,
        to,
        is_group: true,
    }
}

mod ample {
    use super::*;

    const OLD: &str =
        "ALLOW - READ_DATA alice\nDENY GROUP WRITE_DATA alice\nALLOW - READ_DATA OWNER@\n\
        ALLOW FILE READ_DATA bob\n";

    const NEW: &str =
        "ALLOW - READ_DATA bob\nDENY GROUP WRITE_DATA team\nALLOW - READ_DATA OWNER@\n\
        ALLOW FILE READ_DATA alice\n";

    #[test]
    fn each_name_is_exchanged_by_its_row(rt: HostRuntime) -> Result<(), Fail> {
        let alloc = rt.alloc();
        let table = [
            user(b"alice", b"bob"),
            group(b"alice", b"team"),
            user(b"bob", b"alice"),
        ];
        let list = parse_text(alloc, OLD.as_bytes())?;
        let made = list.view().renamed(alloc, &table, false)?;
        assert!(rt; made == parse_text(alloc, NEW.as_bytes())?);
        Ok(())
    }

    #[test]
    fn two_names_become_one_only_if_they_may(rt: HostRuntime) -> Result<(), Fail> {
        let alloc = rt.alloc();
        let table = [user(b"alice", b"bob")];
        let list = parse_text(alloc, OLD.as_bytes())?;
        let found = list.view().renamed(alloc, &table, false).err();
        assert!(rt; found == Some(RenameFault::Merged(3)));
        assert!(rt; list.view().renamed(alloc, &table, true)?.len() == 4);
        Ok(())
    }

    #[test]
    fn rows_of_other_names_are_refused(rt: HostRuntime) -> Result<(), Fail> {
        let list = parse_text(rt.alloc(), OLD.as_bytes())?;
        let rows = [
            (user(b"OWNER@", b"x"), 1),
            (user(b"x", b"GROUP@"), 1),
            (user(b"x", b""), 1),
            (user(b"x", b"\n"), 1),
            (user(b"alice", b"x"), 1),
        ];
        for (row, place) in rows {
            let table = [user(b"alice", b"carol"), row];
            let found = list.view().renamed(rt.alloc(), &table, false).err();
            assert!(rt; found == Some(RenameFault::Row(place)));
        }
        Ok(())
    }
}
