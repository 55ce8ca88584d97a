//! The rows of principals while one ACE after the other is emitted. By the first match (RFC 8881, section 6.2.1), an
//! ALLOW of the owner must stay after an earlier DENY of a user who may be the owner.

use super::harness::{NO_WRITE, READ_DATA, WRITE_DATA};
use acl_lists_for_tests::built;
use acl_normal::MergedRows;
use acl_perm::{Kind, Mask, Principal};
use std::process::Abort;
use std::test::Fail;

// Bob's ACE waits before the owner's, which is free to write once bob's is out.
fn bob_goes_first(rt: &impl Abort, rows: &mut MergedRows<'_>, read: Mask, write: Mask) {
    let bob = Principal::User(b"bob");
    assert!(rt; rows.is_free(Principal::Owner, read));
    assert!(rt; !rows.is_free(Principal::Owner, write));
    assert!(rt; rows.is_free(bob, write));
    assert!(rt; rows.waiting(Kind::Deny, true, write).contains(&0));
    assert!(rt; rows.waiting(Kind::Allow, false, write).contains(&1));
    rows.emit(bob, write);
    assert!(rt; !rows.waiting(Kind::Deny, true, write).contains(&0));
    assert!(rt; rows.is_free(Principal::Owner, write));
}

mod ample {
    use super::*;

    #[test]
    fn an_ace_of_merged_rows_is_free_once_the_ace_that_blocks_it_is_emitted(
        rt: HostRuntime,
    ) -> Result<(), Fail> {
        let read = Mask::new(READ_DATA).ok_or("no such right")?;
        let write = Mask::new(WRITE_DATA).ok_or("no such right")?;
        let list = built(rt.alloc(), &NO_WRITE)?;
        let mut rows = MergedRows::new(rt.alloc(), &list)?;
        bob_goes_first(&rt, &mut rows, read, write);
        Ok(())
    }
}
