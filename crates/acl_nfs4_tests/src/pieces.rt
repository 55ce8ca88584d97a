//! A list that arrives in pieces.

use acl_nfs4::{Acl, Fault, Feed};
use std::alloc::Global;

/// Feeds the bytes in pieces of `size` bytes, and returns how the feed ends.
pub fn fed_in_pieces(alloc: Global, bytes: &[u8], size: usize) -> Result<Acl, Fault> {
    let mut feed = Feed::new(alloc);
    for piece in bytes.chunks(size.max(1)) {
        let _ = feed.feed(piece);
    }
    feed.finish()
}
