//! Questions about a prepared list, to count their instructions: `bench/calls` runs each test alone.

use acl_eval::{Object, Requester};
use acl_nfs4::{AceRef, Acl, PushFault};
use acl_perm::{Flags, Kind, Mask};
use acl_prepared::*;
use std::alloc::Global;

const COUNT: u32 = 128;

fn digit(number: u32) -> u8 {
    b'0' + (number % 10) as u8
}

// The name `u` and the number in five digits.
fn name(number: u32) -> [u8; 6] {
    let (hundreds, tens) = (digit(number / 100), digit(number / 10));
    [b'u', b'0', b'0', hundreds, tens, digit(number)]
}

// A list in which ACE i, from 0, has READ_DATA: if i is even, it denies the group i, and else it allows the user i.
fn list_of(alloc: Global) -> Result<Acl, PushFault> {
    let mut list = Acl::new(alloc);
    for number in 0..COUNT {
        let (kind, flags) = match number % 2 {
            0 => (Kind::Deny, Flags::IDENTIFIER_GROUP),
            _ => (Kind::Allow, Flags::NONE),
        };
        list.push(AceRef {
            kind,
            flags,
            mask: Mask::READ_DATA,
            who: &name(number),
        })?;
    }
    Ok(list)
}

// Sixteen groups that the list does not have.
const GROUPS: [&[u8]; 16] = [
    b"u80123", b"u80234", b"u80345", b"u80456", b"u80567", b"u80678", b"u80789", b"u80890",
    b"u81123", b"u81234", b"u81345", b"u81456", b"u81567", b"u81678", b"u81789", b"u81890",
];

// How often, of this many times, the prepared list decides READ_DATA for a user in these groups: never, so that every
// ACE is read.
fn decided(alloc: Global, times: usize) -> Option<usize> {
    let list = list_of(alloc).ok()?;
    let made = prepare(alloc, &list.view()).ok()?;
    let object = Object::new(b"owner", b"group")?;
    let requester = Requester::new(b"u70000", &GROUPS)?;
    let prepared = Prepared::read(&made)?;
    let done = (0..times)
        .filter(|_| match prepared.decided(&object, &requester, Mask::READ_DATA) {
            Some(rights) => rights.denied != Mask::NONE,
            None => true,
        })
        .count();
    Some(done)
}

#[test]
fn a_prepared_list_of_128_aces_is_decided_once(rt: HostRuntime) {
    let done = decided(rt.alloc(), 1);
    assert!(rt; done == None || done == Some(0));
}

#[test]
fn a_prepared_list_of_128_aces_is_decided_1000_times(rt: HostRuntime) {
    let done = decided(rt.alloc(), 1000);
    assert!(rt; done == None || done == Some(0));
}
