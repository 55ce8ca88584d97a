//! The property that every reader returns the same list or the same fault, however the bytes arrive. The offsets of the
//! faults are those of the fields in the layout of RFC 4506 over RFC 8881, section 6.2.1; the reasons are those of
//! docs/reference/formats.md.

use super::readers::{ALICE, ONE, THREE, decoded, fault, fed, parsed};
use acl_nfs4::*;
use std::alloc::{AllocError, Global};
use std::process::Abort;

// Returns whether two readers return the same list or the same fault.
fn is_same(one: &Result<Acl, Fault>, other: &Result<Acl, Fault>) -> bool {
    match (one, other) {
        (Ok(list), Ok(same)) => list == same,
        (Err(fault), Err(same)) => fault == same,
        _ => false,
    }
}

// Returns whether all readers return the same list or the same fault. The feed takes two pieces.
fn agree(alloc: Global, bytes: &[u8], first: usize) -> bool {
    let list = parsed(alloc, bytes);
    is_same(&decoded(alloc, bytes, u64::MAX, 7), &list) && is_same(&fed(alloc, bytes, first), &list)
}

// Returns whether the beginning of this length of a list is cut short for every reader.
fn is_cut_short(alloc: Global, list: &[u8], len: usize) -> bool {
    let (front, _) = list.split_at(len.min(list.len()));
    let fault = parsed(alloc, front).err();
    fault.is_some_and(|fault| fault.reason == Reason::Truncated) && agree(alloc, front, len / 2)
}

// A place, the bytes from there on, and the fault of the list with these bytes.
static REFUSED: [(usize, &[u8], u64, Reason); 9] = [
    (0, &[0xff; 4], 0, Reason::TooManyAces),
    (4, &[0xff; 4], 4, Reason::AceType),
    (8, &[0xff; 4], 8, Reason::FlagBits),
    (12, &[0xff; 4], 12, Reason::MaskBits),
    (16, &[0xff; 4], 16, Reason::WhoLength),
    (16, b"\0\0\0\x01@\0\0\0", 20, Reason::SpecialWho),
    (16, b"\0\0\0\x01\xc3\0\0\0", 20, Reason::WhoUtf8),
    (16, b"\0\0\0\x02\xc3\x09\0\0", 20, Reason::WhoUtf8),
    (16, b"\0\0\0\x02\x09@\0\0", 20, Reason::WhoControl),
];

// Checks that every reader returns this fault for the list with these bytes at a place.
fn check_fault(rt: &impl Abort, alloc: Global, at: usize, bytes: &[u8], expected: Fault) {
    let mut whole = ONE;
    for (to, from) in whole.iter_mut().skip(at).zip(bytes) {
        *to = *from;
    }
    assert!(rt; parsed(alloc, &whole).err() == Some(expected));
    assert!(rt; agree(alloc, &whole, 18), "{expected:?}");
}

// A list of one ACE whose who has 1,024 bytes.
fn longest(alloc: Global) -> Result<Vec<u8>, AllocError> {
    let (front, _) = ONE.split_at(18);
    let mut longest = Vec::from_slice(alloc, front)?;
    longest.extend_from_slice(&[4, 0])?;
    longest.extend_from_slice(&[b'a'; 1024])?;
    Ok(longest)
}

mod ample {
    use super::*;

    // Every proper beginning of three lists, and a list with each of its bytes replaced by each byte.
    #[test]
    fn parsing_decoding_and_feeding_agree(rt: HostRuntime) {
        for list in [ONE.as_slice(), &ALICE, &THREE] {
            for len in 0..list.len() {
                assert!(rt; is_cut_short(rt.alloc(), list, len), "{len} bytes");
            }
        }
        for place in 0..72usize {
            for byte in 0..=255u8 {
                let mut damaged = THREE;
                if let Some(at) = damaged.get_mut(place) {
                    *at = byte;
                }
                assert!(rt; agree(rt.alloc(), &damaged, place), "{byte} at {place}");
            }
        }
    }

    // Words and names that every reader refuses at the same place, and the longest name.
    #[test]
    fn every_reader_reports_the_same_fault(rt: HostRuntime) -> Result<(), AllocError> {
        for (at, bytes, offset, reason) in REFUSED {
            check_fault(&rt, rt.alloc(), at, bytes, fault(offset, reason));
        }
        let longest = longest(rt.alloc())?;
        assert!(rt; parsed(rt.alloc(), &longest).is_ok_and(|list| list.len() == 1));
        assert!(rt; agree(rt.alloc(), &longest, 1000));
        Ok(())
    }
}
