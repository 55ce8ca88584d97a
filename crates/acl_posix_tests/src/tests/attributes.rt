//! The bytes of extended attributes: the layout of include/uapi/linux/posix_acl_xattr.h, and what
//! `posix_acl_from_xattr` and `posix_acl_valid` refuse.

use acl_posix::*;
use std::test::Fail;

// `u::rw-,u:1000:r--,g::r--,m::r--,o::---`
const SHARED: &[u8] =
    b"\x02\0\0\0\x01\0\x06\0\xff\xff\xff\xff\x02\0\x04\0\xe8\x03\0\0\x04\0\x04\0\xff\xff\xff\xff\
    \x10\0\x04\0\xff\xff\xff\xff\x20\0\0\0\xff\xff\xff\xff";

fn is_refused(found: Result<Option<PosixAcl>, AttributeFault>, wanted: AttributeFault) -> bool {
    match found {
        Ok(_) => false,
        Err(fault) => fault == wanted,
    }
}

mod ample {
    use super::*;

    #[test]
    fn the_bytes_of_an_attribute_are_those_of_linux(rt: HostRuntime) -> Result<(), Fail> {
        let alloc = rt.alloc();
        let acl = PosixAcl::from_attribute(alloc, SHARED)?.ok_or("has entries")?;
        assert!(rt; acl.get(Tag::User(Id { value: 1000 })).is_some());
        let bytes = acl.to_attribute(alloc)?;
        assert!(rt; bytes.as_slice() == SHARED);
        Ok(())
    }

    #[test]
    fn an_attribute_that_the_kernel_refuses_is_refused(rt: HostRuntime) {
        let alloc = rt.alloc();
        let rows: [(&[u8], AttributeFault); 7] = [
            (b"\x02\0\0", AttributeFault::Size),
            (b"\0\0\0\x02", AttributeFault::Version),
            (b"\x02\0\0\0\x01\0\x06\0", AttributeFault::Size),
            (
                b"\x02\0\0\0\x03\0\x06\0\xff\xff\xff\xff",
                AttributeFault::Entry(0, EntryFault::Tag),
            ),
            (
                b"\x02\0\0\0\x02\0\x06\0\xff\xff\xff\xff",
                AttributeFault::Entry(0, EntryFault::Id),
            ),
            (
                b"\x02\0\0\0\x01\0\x08\0\xff\xff\xff\xff",
                AttributeFault::Entry(0, EntryFault::Perm),
            ),
            (
                b"\x02\0\0\0\x04\0\x06\0\xff\xff\xff\xff\x01\0\x06\0\xff\xff\xff\xff",
                AttributeFault::Order(1),
            ),
        ];
        for (bytes, wanted) in rows {
            assert!(rt; is_refused(PosixAcl::from_attribute(alloc, bytes), wanted));
        }
    }
}
