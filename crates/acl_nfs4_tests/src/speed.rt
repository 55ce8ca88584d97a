//! Calls with many ACEs. `bench/calls` runs each test alone, and counts its instructions and its time. A test checks
//! that the calls succeed on one list: its 65,536 ACEs take 24 bytes each, and their number 4 (RFC 4506, sections 4.2,
//! 4.10 and 4.13).

use crate::pieces::fed_in_pieces;
use acl_nfs4::*;
use std::alloc::{AllocError, Global};

const COUNT: u32 = 65_536;

// Returns the bytes of COUNT ACEs with READ_DATA, for the users `u00000`, `u00001` and so on.
fn text(alloc: Global) -> Result<Vec<u8>, AllocError> {
    let mut text = Vec::new(alloc);
    text.extend_from_slice(&COUNT.to_be_bytes())?;
    for number in 0..COUNT {
        text.extend_from_slice(b"\0\0\0\0\0\0\0\0\0\0\0\x01\0\0\0\x06u")?;
        for place in [10000, 1000, 100, 10, 1u32] {
            text.push(b'0'.wrapping_add((number / place % 10) as u8))?;
        }
        text.extend_from_slice(b"\0\0")?;
    }
    Ok(text)
}

// A call that is timed. A feed takes pieces of 4,096 bytes, or single bytes.
#[derive(Clone, Copy)]
enum TimedCall {
    Parse,
    Decode,
    Feed,
    FeedBytes,
    Encode,
}

// Returns how often `parse` finds the list, of this many calls.
fn parsed(text: &[u8], times: usize) -> usize {
    (0..times)
        .filter(|_| AclView::parse(text).is_ok_and(|(_, len)| len == 1_572_868))
        .count()
}

// Returns whether the answer is the list, or memory ran out.
fn is_given(answer: Result<Acl, Fault>) -> bool {
    match answer {
        Ok(list) => list.len() == 65_536,
        Err(fault) => fault.reason == Reason::Memory,
    }
}

// Returns how often `decode` returns the list.
fn decoded(alloc: Global, text: &[u8], times: usize) -> usize {
    (0..times)
        .filter(|_| is_given(decode(alloc, &mut Counted::new(text))))
        .count()
}

// Returns how often a feed returns the list.
fn fed(alloc: Global, text: &[u8], size: usize, times: usize) -> usize {
    (0..times)
        .filter(|_| is_given(fed_in_pieces(alloc, text, size)))
        .count()
}

// Returns how often the list is written.
fn encoded(alloc: Global, text: &[u8], times: usize) -> usize {
    let (Ok(list), Ok(mut room)) = (
        decode(alloc, &mut Counted::new(text)),
        Vec::from_slice(alloc, text),
    ) else {
        return times;
    };
    (0..times)
        .filter(|_| list.encode(&mut Counted::new(room.as_mut_slice())).is_ok())
        .count()
}

// Returns whether each of this many calls succeeds, if there is memory for the bytes.
fn goes_well(alloc: Global, call: TimedCall, times: usize) -> bool {
    let Ok(text) = text(alloc) else {
        return true;
    };
    let done = match call {
        TimedCall::Parse => parsed(&text, times),
        TimedCall::Decode => decoded(alloc, &text, times),
        TimedCall::Feed => fed(alloc, &text, 4096, times),
        TimedCall::FeedBytes => fed(alloc, &text, 1, times),
        TimedCall::Encode => encoded(alloc, &text, times),
    };
    text.len() == 1_572_868 && done == times
}

#[test]
fn the_bytes_are_made(rt: HostRuntime) {
    assert!(rt; goes_well(rt.alloc(), TimedCall::Parse, 0));
}

#[test]
fn a_list_is_parsed_once(rt: HostRuntime) {
    assert!(rt; goes_well(rt.alloc(), TimedCall::Parse, 1));
}

#[test]
fn a_list_is_parsed_ten_times(rt: HostRuntime) {
    assert!(rt; goes_well(rt.alloc(), TimedCall::Parse, 10));
}

#[test]
fn a_list_is_decoded_once(rt: HostRuntime) {
    assert!(rt; goes_well(rt.alloc(), TimedCall::Decode, 1));
}

#[test]
fn a_list_is_decoded_ten_times(rt: HostRuntime) {
    assert!(rt; goes_well(rt.alloc(), TimedCall::Decode, 10));
}

#[test]
fn a_list_is_fed_once(rt: HostRuntime) {
    assert!(rt; goes_well(rt.alloc(), TimedCall::Feed, 1));
}

#[test]
fn a_list_is_fed_ten_times(rt: HostRuntime) {
    assert!(rt; goes_well(rt.alloc(), TimedCall::Feed, 10));
}

#[test]
fn a_list_is_fed_byte_by_byte(rt: HostRuntime) {
    assert!(rt; goes_well(rt.alloc(), TimedCall::FeedBytes, 1));
}

#[test]
fn a_list_is_made_and_not_encoded(rt: HostRuntime) {
    assert!(rt; goes_well(rt.alloc(), TimedCall::Encode, 0));
}

#[test]
fn a_list_is_encoded_once(rt: HostRuntime) {
    assert!(rt; goes_well(rt.alloc(), TimedCall::Encode, 1));
}

#[test]
fn a_list_is_encoded_ten_times(rt: HostRuntime) {
    assert!(rt; goes_well(rt.alloc(), TimedCall::Encode, 10));
}
