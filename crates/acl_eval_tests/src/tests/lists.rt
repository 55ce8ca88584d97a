//! Lists, as the bytes that spell them, and the questions that the tests ask. The bytes are written by hand in the
//! layout of RFC 4506, sections 4.2, 4.10 and 4.13, over RFC 8881, section 6.2.1.

use acl_eval::*;
use acl_nfs4::AclView;
use acl_perm::Mask;

/// No ACE.
pub const NONE: &[u8; 4] = b"\0\0\0\0";

/// ALLOW READ_DATA OWNER@, DENY WRITE_DATA bob, ALLOW WRITE_DATA OWNER@.
pub const THREE: &[u8; 72] = b"\0\0\0\x03\
    \0\0\0\0\0\0\0\0\0\0\0\x01\0\0\0\x06OWNER@\0\0\
    \0\0\0\x01\0\0\0\0\0\0\0\x02\0\0\0\x03bob\0\
    \0\0\0\0\0\0\0\0\0\0\0\x02\0\0\0\x06OWNER@\0\0";

/// ALLOW READ_DATA alice, with FILE_INHERIT and INHERIT_ONLY.
pub const INHERIT_ONLY: &[u8; 28] = b"\0\0\0\x01\0\0\0\0\0\0\0\x09\0\0\0\x01\0\0\0\x05alice\0\0\0";

/// ALLOW READ_DATA GROUP@, with IDENTIFIER_GROUP.
pub const OWNING_GROUP: &[u8; 28] = b"\0\0\0\x01\0\0\0\0\0\0\0\x40\0\0\0\x01\0\0\0\x06GROUP@\0\0";

/// DENY READ_DATA the group guest, with FILE_INHERIT and INHERIT_ONLY, DENY READ_DATA the group users, and ALLOW
/// READ_DATA EVERYONE@.
pub const GROUP_NAMED: &[u8; 80] = b"\0\0\0\x03\
    \0\0\0\x01\0\0\0\x49\0\0\0\x01\0\0\0\x05guest\0\0\0\
    \0\0\0\x01\0\0\0\x40\0\0\0\x01\0\0\0\x05users\0\0\0\
    \0\0\0\0\0\0\0\0\0\0\0\x01\0\0\0\x09EVERYONE@\0\0\0";

/// DENY READ_DATA x-long-name@a, ALLOW READ_DATA y-long-name@a.
pub const LONG_NAMES: &[u8; 68] = b"\0\0\0\x02\
    \0\0\0\x01\0\0\0\0\0\0\0\x01\0\0\0\x0dx-long-name@a\0\0\0\
    \0\0\0\0\0\0\0\0\0\0\0\x01\0\0\0\x0dy-long-name@a\0\0\0";

/// A list, the owner of an object of the group staff, and a requester.
#[derive(Clone, Copy)]
pub struct Question<'a> {
    bytes: &'a [u8],
    owner: &'a str,
    user: &'a str,
    groups: &'a [&'a [u8]],
}

impl<'a> Question<'a> {
    pub fn new(bytes: &'a [u8], owner: &'a str, user: &'a str, groups: &'a [&'a [u8]]) -> Self {
        Question {
            bytes,
            owner,
            user,
            groups,
        }
    }

    /// Returns the values of the question, if the bytes spell a list and no name is empty.
    pub fn values(&self) -> Option<(AclView<'a>, Object<'a>, Requester<'a>)> {
        let list = AclView::parse_whole(self.bytes).ok()?;
        let object = Object::new(self.owner.as_bytes(), b"staff")?;
        let requester = Requester::new(self.user.as_bytes(), self.groups)?;
        Some((list, object, requester))
    }

    /// Returns whether the list grants the rights.
    pub fn is_granted(&self, bits: u32) -> Option<bool> {
        let (list, object, requester) = self.values()?;
        Some(grants(list.aces(), &object, &requester, Mask::new(bits)?))
    }

    /// Returns the rights of the mask that the list grants.
    pub fn granted(&self, bits: u32) -> Option<u32> {
        let (list, object, requester) = self.values()?;
        Some(granted(list.aces(), &object, &requester, Mask::new(bits)?).bits())
    }

    /// Returns the rights of the mask that the list allows and those that it denies.
    pub fn decided(&self, bits: u32) -> Option<(u32, u32)> {
        let (list, object, requester) = self.values()?;
        let rights = decided(list.aces(), &object, &requester, Mask::new(bits)?);
        Some((rights.allowed.bits(), rights.denied.bits()))
    }
}
