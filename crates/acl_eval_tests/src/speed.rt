//! Checks over many ACEs, to count their instructions: `bench/calls` runs each test alone.

ghost use Rattle.std.specs.Prelude.{◌<◌};

use acl_eval::*;
use acl_nfs4::AclView;
use acl_perm::Mask;
use std::alloc::{AllocError, Global};

const COUNT: u32 = 4096;

fn push_word(bytes: &mut Vec<u8>, number: u32) -> Result<(), AllocError> {
    for byte in number.to_be_bytes() {
        bytes.push(byte)?;
    }
    Ok(())
}

fn digit(number: u32) -> u8 {
    b'0' + (number % 10) as u8
}

// The name `u` and the number in five digits.
fn name(number: u32) -> [u8; 6] {
    [
        b'u',
        digit(number / 10000),
        digit(number / 1000),
        digit(number / 100),
        digit(number / 10),
        digit(number),
    ]
}

// A list in which ACE i, from 0, is of user i with READ_DATA, and denies if i is even.
fn spelled(alloc: Global) -> Result<Vec<u8>, AllocError> {
    list_of(alloc, COUNT, 0)
}

// A list of this many ACEs. ACE i, from 0, is of user i with READ_DATA. If i is even, it denies, and has these flags.
fn list_of(alloc: Global, count: u32, flags: u32) -> Result<Vec<u8>, AllocError> {
    let mut bytes = Vec::new(alloc);
    push_word(&mut bytes, count)?;
    for number in 0..count {
        push_word(&mut bytes, 1 - number % 2)?;
        push_word(&mut bytes, (1 - number % 2) * flags)?;
        push_word(&mut bytes, 1)?;
        push_word(&mut bytes, 6)?;
        for byte in name(number) {
            bytes.push(byte)?;
        }
        bytes.push(0)?;
        bytes.push(0)?;
    }
    Ok(bytes)
}

// How often, of this many times, the user of the last ACE is granted READ_DATA.
fn granted(bytes: &[u8], times: usize) -> Option<usize> {
    let list = AclView::parse_whole(bytes).ok()?;
    let user = name(COUNT - 1);
    let object = Object::new(b"owner", b"group")?;
    let requester = Requester::new(&user, &[])?;
    let mask = Mask::new(1)?;
    Some(
        (0..times)
            .filter(|_| grants(list.aces(), &object, &requester, mask))
            .count(),
    )
}

#[test]
fn a_list_of_4096_aces_is_read(rt: HostRuntime) {
    if let Ok(bytes) = spelled(rt.alloc()) {
        assert!(rt; granted(&bytes, 0) == Some(0));
    }
}

#[test]
fn the_last_of_4096_aces_grants_once(rt: HostRuntime) {
    if let Ok(bytes) = spelled(rt.alloc()) {
        assert!(rt; granted(&bytes, 1) == Some(1));
    }
}

#[test]
fn the_last_of_4096_aces_grants_1000_times(rt: HostRuntime) {
    if let Ok(bytes) = spelled(rt.alloc()) {
        assert!(rt; granted(&bytes, 1000) == Some(1000));
    }
}

// Sixteen groups that no list has.
const GROUPS: [&[u8]; 16] = [
    b"u80123", b"u80234", b"u80345", b"u80456", b"u80567", b"u80678", b"u80789", b"u80890",
    b"u81123", b"u81234", b"u81345", b"u81456", b"u81567", b"u81678", b"u81789", b"u81890",
];

// How often, of this many times, a list of this many ACEs decides READ_DATA for a user in so many groups: never, so
// that every ACE is read, and every second is of a group.
fn decided_of(alloc: Global, count: u32, groups: usize, times: usize) -> Option<usize> {
    let bytes = list_of(alloc, count, 0x40).ok()?;
    let list = AclView::parse_whole(&bytes).ok()?;
    let object = Object::new(b"owner", b"group")?;
    let requester = Requester::new(b"u70000", GROUPS.get(..groups)?)?;
    let mask = Mask::new(1)?;
    let done = (0..times)
        .filter(|_| decided(list.aces(), &object, &requester, mask).denied != Mask::NONE)
        .count();
    Some(done)
}

#[test]
fn a_list_of_128_aces_is_decided_once(rt: HostRuntime) {
    let done = decided_of(rt.alloc(), 128, 16, 1);
    assert!(rt; done == None || done == Some(0));
}

#[test]
fn a_list_of_128_aces_is_decided_1000_times(rt: HostRuntime) {
    let done = decided_of(rt.alloc(), 128, 16, 1000);
    assert!(rt; done == None || done == Some(0));
}
