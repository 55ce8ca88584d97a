//! The example of the README, with the answers of RFC 8881, section 6.2.1.
use acl_eval::{Object, Requester, grants};
use acl_nfs4::{AclView, read_mask};
use std::test::Fail;

// ALLOW READ_DATA OWNER@, DENY WRITE_DATA bob, ALLOW WRITE_DATA OWNER@.
const ATTRIBUTE: &[u8; 72] = b"\0\0\0\x03\
    \0\0\0\0\0\0\0\0\0\0\0\x01\0\0\0\x06OWNER@\0\0\
    \0\0\0\x01\0\0\0\0\0\0\0\x02\0\0\0\x03bob\0\
    \0\0\0\0\0\0\0\0\0\0\0\x02\0\0\0\x06OWNER@\0\0";

#[test]
fn alice_may_write_and_bob_may_not(rt: HostRuntime) -> Result<(), Fail> {
    let list = AclView::parse_whole(ATTRIBUTE)?;
    let write = read_mask(b"WRITE_DATA").ok_or("no such right")?;
    for (user, expected) in [("alice", true), ("bob", false)] {
        let object = Object::new(user.as_bytes(), b"staff").ok_or("a name is empty")?;
        let requester = Requester::new(user.as_bytes(), &[]).ok_or("a name is empty")?;
        let may_write = grants(list.aces(), &object, &requester, write);
        assert_eq!(rt; may_write, expected, "{user} as the owner");
    }
    Ok(())
}
