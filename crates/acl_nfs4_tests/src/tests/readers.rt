//! What the tests of readers share: three lists as the bytes of RFC 4506, sections 4.2, 4.10 and 4.13, over RFC 8881,
//! section 6.2.1, and the three ways to read a list: whole, from a source, and in pieces.

use acl_nfs4::*;
use std::alloc::Global;

/// A list of one ACE: ALLOW, no flag, READ_DATA, EVERYONE@.
pub const ONE: [u8; 32] = [
    0, 0, 0, 1, 0, 0, 0, 0, 0, 0, 0, 0, 0, 0, 0, 1, 0, 0, 0, 9, 0x45, 0x56, 0x45, 0x52, 0x59, 0x4f,
    0x4e, 0x45, 0x40, 0, 0, 0,
];

/// A list of three ACEs: ALLOW READ_DATA for OWNER@, DENY WRITE_DATA for bob, ALLOW WRITE_DATA for OWNER@.
pub const THREE: [u8; 72] = [
    0, 0, 0, 3, 0, 0, 0, 0, 0, 0, 0, 0, 0, 0, 0, 1, 0, 0, 0, 6, 0x4f, 0x57, 0x4e, 0x45, 0x52, 0x40,
    0, 0, 0, 0, 0, 1, 0, 0, 0, 0, 0, 0, 0, 2, 0, 0, 0, 3, 0x62, 0x6f, 0x62, 0, 0, 0, 0, 0, 0, 0, 0,
    0, 0, 0, 0, 2, 0, 0, 0, 6, 0x4f, 0x57, 0x4e, 0x45, 0x52, 0x40, 0, 0,
];

/// A list of one ACE: ALLOW READ_DATA for alice.
pub const ALICE: [u8; 28] = [
    0, 0, 0, 1, 0, 0, 0, 0, 0, 0, 0, 0, 0, 0, 0, 1, 0, 0, 0, 5, 0x61, 0x6c, 0x69, 0x63, 0x65, 0, 0,
    0,
];

/// Returns the fault with this reason at this place.
pub fn fault(offset: u64, reason: Reason) -> Fault {
    Fault { offset, reason }
}

/// Returns the list at the front of bytes.
pub fn parsed(alloc: Global, bytes: &[u8]) -> Result<Acl, Fault> {
    let (view, _) = AclView::parse(bytes)?;
    match Acl::from_view(alloc, &view) {
        Ok(list) => Ok(list),
        Err(_) => Err(fault(0, Reason::Memory)),
    }
}

/// Returns the list of a source whose reads give at most `step` bytes and fail after `calls` of them.
pub fn decoded(alloc: Global, bytes: &[u8], calls: u64, step: usize) -> Result<Acl, Fault> {
    decode(alloc, &mut Counted::new(Fused::new(bytes, calls, step)))
}

/// Returns the list of a feed that takes two pieces. The first piece has `first` bytes.
pub fn fed(alloc: Global, bytes: &[u8], first: usize) -> Result<Acl, Fault> {
    let mut feed = Feed::new(alloc);
    let (front, back) = bytes.split_at(first.min(bytes.len()));
    let _ = feed.feed(front);
    let _ = feed.feed(back);
    feed.finish()
}

/// Returns whether both answers are the same list.
pub fn same_list(decoded: Result<Acl, Fault>, parsed: Result<Acl, Fault>) -> bool {
    match (decoded, parsed) {
        (Ok(decoded), Ok(parsed)) => decoded == parsed,
        _ => false,
    }
}
