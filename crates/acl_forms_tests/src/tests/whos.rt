//! Which whos have an id in the layout of nfsacl41i (Samba's nfs41acl.x). OWNER@, GROUP@ and EVERYONE@ have numbers in
//! that description. That another name has an id if it is the digits that `%u` prints of it is this library's own. Ids
//! end at 4294967294: chown(2) changes no id if it is given the next number, which is -1.

use acl_forms::*;
use acl_nfs4::{AceRef, Acl, Flags, Kind, Mask, PushFault};
use std::alloc::Global;

// Returns the list of an ACE that names this who.
fn list_of(alloc: Global, who: &[u8]) -> Result<Acl, PushFault> {
    let mut list = Acl::new(alloc);
    list.push(AceRef {
        kind: Kind::Allow,
        flags: Flags::NONE,
        mask: Mask { bits: 1 },
        who,
    })?;
    Ok(list)
}

mod ample {
    use super::*;

    #[test]
    fn a_who_has_an_id_if_it_is_the_digits_of_one(rt: HostRuntime) -> Result<(), PushFault> {
        let alloc = rt.alloc();
        let rows: [(&[u8], bool); 12] = [
            (b"OWNER@", true),
            (b"GROUP@", true),
            (b"EVERYONE@", true),
            (b"0", true),
            (b"4294967294", true),
            (b"4294967295", false),
            (b"4294967296", false),
            (b"00", false),
            (b"01001", false),
            (b"+1001", false),
            (b"10 01", false),
            (b"alice", false),
        ];
        for (who, has_id) in rows {
            let list = list_of(alloc, who)?;
            assert!(rt;
                acl41_ids_fault(&list.view()).is_none() == has_id,
                "{who:?}"
            );
        }
        Ok(())
    }
}
