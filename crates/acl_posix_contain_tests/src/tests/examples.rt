//! The example of the doc comment, with the same lines. The expected ACL is worked by hand from acl(5), "ACCESS CHECK
//! ALGORITHM".

use acl_posix::{Names, parse};
use acl_posix_contain::restricted;
use std::test::Fail;

mod ample {
    use super::*;

    #[test]
    fn a_user_keeps_what_the_bound_grants_the_user(rt: HostRuntime) -> Result<(), Fail> {
        let alloc = rt.alloc();
        let names = Names::new(alloc);
        let acl = parse(alloc, b"u::rw-,u:7:rw-,g::r--,m::rw-,o::r--", &names)?.access;
        let bound = parse(alloc, b"u::rw-,u:7:r--,g::r--,m::r--,o::---", &names)?.access;
        let kept = restricted(alloc, &acl, &bound)?;
        assert!(rt; kept == parse(alloc, b"u::rw-,u:7:r--,g::r--,m::rw-,o::---", &names)?.access);
        Ok(())
    }
}
