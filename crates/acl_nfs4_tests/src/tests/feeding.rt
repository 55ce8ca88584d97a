//! The property that a list that arrives in pieces is the list of all its bytes, with the same fault if it has one. The
//! offsets are those of the fields in the layout of RFC 4506 over RFC 8881, section 6.2.1.

use super::readers::{ONE, THREE, decoded, fault, parsed, same_list};
use crate::pieces::fed_in_pieces;
use acl_nfs4::*;
use std::alloc::{AllocError, Global};
use std::process::Abort;

// Feeds the list `THREE` in two pieces, of which the first has `first` bytes. The bytes of the first piece and those
// that are taken of the second one add up to the 72 bytes of the list.
fn feed_two_pieces(rt: &impl Abort, alloc: Global, first: usize, list: &Acl) {
    let mut feed = Feed::new(alloc);
    let (front, back) = THREE.split_at(first.min(72));
    let taken = 72usize.saturating_sub(first);
    assert!(rt; feed.feed(front) == Fed::More);
    assert!(rt; feed.feed(&[]) == Fed::More);
    assert!(rt; feed.feed(back) == Fed::Done { taken });
    assert!(rt; feed.feed(back) == Fed::Done { taken: 0 });
    assert!(rt; feed.finish().is_ok_and(|fed| fed == *list));
}

fn feed_byte_by_byte(rt: &impl Abort, alloc: Global, list: &Acl) {
    let mut feed = Feed::new(alloc);
    for (place, byte) in THREE.chunks(1).enumerate() {
        let last = Fed::Done { taken: 1 };
        assert!(rt; feed.feed(byte) == (if place < 71 { Fed::More } else { last }));
    }
    assert!(rt; feed.finish().is_ok_and(|fed| fed == *list));
}

fn feed_past_the_end(rt: &impl Abort, alloc: Global) {
    let mut feed = Feed::new(alloc);
    let (front, _) = ONE.split_at(30);
    assert!(rt; feed.feed(&[]) == Fed::More);
    assert!(rt; feed.feed(front) == Fed::More);
    assert!(rt; feed.feed(&[0, 0, 0xff]) == Fed::Done { taken: 2 });
    assert!(rt; feed.feed(&[1, 2]) == Fed::Done { taken: 0 });
}

// Returns a feed that has taken everything up to the padding, and one byte of the padding.
fn fed_to_padding(rt: &impl Abort, alloc: Global) -> Feed {
    let mut feed = Feed::new(alloc);
    let (front, _) = ONE.split_at(29);
    assert!(rt; feed.feed(front) == Fed::More);
    assert!(rt; feed.feed(&[1]) == Fed::More);
    assert!(rt; feed.feed(&[]) == Fed::More);
    feed
}

// Feeds two pieces under the narrow profile. The first piece has `first` bytes.
fn fed_narrowly(alloc: Global, bytes: &[u8], first: usize) -> Result<Acl, Fault> {
    let mut feed = Feed::with_profile(alloc, Profile::NARROW);
    let (front, back) = bytes.split_at(first.min(bytes.len()));
    let _ = feed.feed(front);
    let _ = feed.feed(back);
    feed.finish()
}

// Returns a list that has ALLOW READ_DATA for alice this many times, and zero bytes after the list.
fn many(alloc: Global, count: u32, zeros: u32) -> Result<Vec<u8>, AllocError> {
    let mut bytes = Vec::new(alloc);
    bytes.extend_from_slice(&count.to_be_bytes())?;
    for _ in 0..count {
        bytes.extend_from_slice(b"\0\0\0\0\0\0\0\0\0\0\0\x01\0\0\0\x05alice\0\0\0")?;
    }
    for _ in 0..zeros {
        bytes.extend_from_slice(&[0; 4096])?;
    }
    Ok(bytes)
}

// After a request for memory was refused, the feed returns Memory from then on.
#[test]
fn a_feed_that_ran_out_of_memory_stays_refused(rt: HostRuntime) {
    let mut feed = Feed::new(rt.alloc());
    match feed.feed(&THREE) {
        Fed::Done { taken } => assert!(rt; taken == 72),
        Fed::Refused(found) => {
            assert!(rt; found == fault(0, Reason::Memory));
            assert!(rt; feed.feed(&THREE) == Fed::Refused(found));
            assert!(rt; feed.finish().err() == Some(found));
        }
        Fed::More => assert!(rt; false),
    }
}

mod ample {
    use super::*;

    // However a list is cut, the feed returns how many bytes belong to it, and later pieces change nothing. A source
    // gives the same list, however many bytes it gives at once.
    #[test]
    fn a_list_may_be_cut_into_any_two_pieces(rt: HostRuntime) -> Result<(), Fault> {
        let list = parsed(rt.alloc(), &THREE)?;
        for first in 0..72usize {
            feed_two_pieces(&rt, rt.alloc(), first, &list);
        }
        feed_byte_by_byte(&rt, rt.alloc(), &list);
        for step in 1..=72usize {
            let read = decoded(rt.alloc(), &THREE, u64::MAX, step);
            assert!(rt; read.is_ok_and(|read| read == list), "{step}");
        }
        Ok(())
    }

    #[test]
    fn a_feed_reports_the_end_of_a_list_and_a_fault(rt: HostRuntime) {
        feed_past_the_end(&rt, rt.alloc());
        let found = fed_to_padding(&rt, rt.alloc()).finish().err();
        assert!(rt; found == Some(fault(29, Reason::Truncated)));
        let mut feed = fed_to_padding(&rt, rt.alloc());
        let padding = fault(29, Reason::Padding);
        assert!(rt; feed.feed(&[0, 0]) == Fed::Refused(padding));
        assert!(rt; feed.feed(&[0, 0]) == Fed::Refused(padding));
        assert!(rt; feed.finish().err() == Some(padding));
        let mut feed = Feed::new(rt.alloc());
        assert!(rt; feed.feed(&[0, 0, 0, 0]) == Fed::Done { taken: 4 });
    }

    #[test]
    fn a_list_of_the_narrow_profile_may_be_cut_into_any_two_pieces(rt: HostRuntime) {
        for first in 0..=72usize {
            let fed = fed_narrowly(rt.alloc(), &THREE, first);
            assert!(rt; same_list(fed, parsed(rt.alloc(), &THREE)), "{first}");
        }
    }

    // Pieces that are about as long as the chunk that a feed takes at once.
    #[test]
    fn a_list_may_be_cut_into_large_pieces(rt: HostRuntime) -> Result<(), AllocError> {
        let bytes = many(rt.alloc(), 600, 0)?;
        for size in [4_095, 4_096, 4_097, 8_192, 16_000usize] {
            let fed = fed_in_pieces(rt.alloc(), &bytes, size);
            assert!(rt; same_list(fed, parsed(rt.alloc(), &bytes)), "{size}");
        }
        Ok(())
    }

    // If a piece continues after the list, the feed keeps little more than the list. The requested memory is counted.
    #[test]
    fn bytes_behind_a_list_are_not_kept(rt: HostRuntime) -> Result<(), AllocError> {
        let bytes = many(rt.alloc(), 200, 1_000)?;
        let mut feed = Feed::new(rt.alloc());
        assert!(rt; feed.feed(&bytes) == Fed::Done { taken: 4_804 });
        assert!(rt; feed.finish().is_ok_and(|list| list.len() == 200));
        Ok(())
    }
}
