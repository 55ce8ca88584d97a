//! The example in the doc comment of `deciding_ace`: its lines are in this test, in order. Which ACE decides is worked
//! by hand from RFC 8881, section 6.2.1.

use acl_decide::*;
use acl_eval::{Object, Requester};
use acl_nfs4::parse_text;
use acl_perm::Right;
use std::test::Fail;

#[test]
fn the_second_ace_decides_that_bob_may_not_write(rt: HostRuntime) -> Result<(), Fail> {
    let alloc = rt.alloc();
    let list = parse_text(alloc, b"ALLOW - READ_DATA bob\nDENY - WRITE_DATA bob")?;
    let object = Object::new(b"alice", b"staff").ok_or("a name is empty")?;
    let bob = Requester::new(b"bob", &[]).ok_or("a name is empty")?;
    let write = Right::new(1).ok_or("no such right")?;
    let decision = deciding_ace(list.aces(), &object, &bob, write).ok_or("no ACE decides")?;
    assert_eq!(rt; decision.place, 1);
    Ok(())
}
