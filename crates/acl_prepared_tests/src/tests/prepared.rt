//! What the bytes of a list decide, by RFC 8881, section 6.2.1, and which bytes are those of no list, which is this
//! library's own.

use acl_eval::{Object, Requester};
use acl_nfs4::parse_text;
use acl_perm::Mask;
use acl_prepared::*;
use std::alloc::Global;
use std::test::Fail;

const THREE: &str = "ALLOW - READ_DATA OWNER@\nDENY - WRITE_DATA bob\nALLOW - WRITE_DATA OWNER@";

const INHERIT_ONLY: &str = "ALLOW FILE|INHERITONLY READ_DATA alice";

const GROUP_NAMED: &str = "DENY GROUP|FILE|INHERITONLY READ_DATA guest
DENY GROUP READ_DATA users
ALLOW - READ_DATA EVERYONE@";

const ALL: u32 = 0x001f_07ff;

// A list, the owner, the requester, who is in the groups staff and users, a mask, and its rights that the list allows
// and that it denies. The owning group is staff.
static DECIDED: [(&str, &[u8], &[u8], u32, u32, u32); 8] = [
    (THREE, b"alice", b"alice", ALL, 3, 0),
    // What was allowed is not denied by a later ACE, and the other way round.
    (THREE, b"bob", b"bob", ALL, 1, 2),
    (THREE, b"bob", b"bob", 1, 1, 0),
    (THREE, b"bob", b"bob", 4, 0, 0),
    (THREE, b"alice", b"bob", ALL, 0, 2),
    ("", b"alice", b"alice", ALL, 0, 0),
    (INHERIT_ONLY, b"bob", b"alice", ALL, 0, 0),
    (GROUP_NAMED, b"bob", b"alice", ALL, 0, 1),
];

// Returns the rights of the mask that the prepared list allows and those that it denies.
fn decided(bytes: &[u8], owner: &[u8], user: &[u8], bits: u32) -> Option<(u32, u32)> {
    let object = Object::new(owner, b"staff")?;
    let requester = Requester::new(user, &[b"staff", b"users"])?;
    let prepared = Prepared::read(bytes)?;
    let rights = prepared.decided(&object, &requester, Mask::new(bits)?)?;
    Some((rights.allowed.bits(), rights.denied.bits()))
}

fn prepared_bytes(alloc: Global, text: &str) -> Result<Vec<u8>, Fail> {
    let list = parse_text(alloc, text.as_bytes())?;
    Ok(prepare(alloc, &list.view())?)
}

mod ample {
    use super::*;

    #[test]
    fn the_rights_are_allowed_denied_or_undecided(rt: HostRuntime) -> Result<(), Fail> {
        for (text, owner, user, bits, allowed, denied) in DECIDED {
            let bytes = prepared_bytes(rt.alloc(), text)?;
            let found = decided(&bytes, owner, user, bits);
            assert!(rt; found == Some((allowed, denied)), "{text}, {bits}");
        }
        Ok(())
    }
}

#[test]
fn other_bytes_are_no_prepared_list(rt: HostRuntime) -> Result<(), Fail> {
    assert!(rt; Prepared::read(b"aclprep").is_none());
    assert!(rt; Prepared::read(b"aclprep2").is_none());
    // A cut number, a name that is not there, a sixth principal, and a bit that is no right.
    let others: [&[u8]; 4] = [
        b"aclprep1\x01\0\0",
        b"aclprep1\x01\0\0\0\x02\0\x01\0",
        b"aclprep1\x01\0\0\0\x0a\0\0\0",
        b"aclprep1\0\x08\0\0\x08\0\0\0",
    ];
    let object = Object::new(b"alice", b"staff").ok_or("a name is empty")?;
    let bob = Requester::new(b"bob", &[b"staff"]).ok_or("a name is empty")?;
    for bytes in others {
        let prepared = Prepared::read(bytes).ok_or("it begins as prepared bytes")?;
        assert!(rt; prepared.decided(&object, &bob, Mask::ALL).is_none());
    }
    Ok(())
}
