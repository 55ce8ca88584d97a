//! What a list grants after a change of the mode, by RFC 8881, section 6.4.1.1: the list has the mode, and names are
//! not granted what the bits of the group lack. The owner is alice, and the group is staff.

use acl_change::*;
use acl_eval::{Object, Requester, granted, mode_of};
use acl_lists_for_tests::{ALLOW, AceRow, DENY, built, kept, passes};
use acl_nfs4::{AceRef, Acl, PushFault};
use acl_perm::{Flags, Mask, Mode};
use std::alloc::Global;
use std::process::Abort;

// A list with named users, a named group, an ACE for new objects and a right that no mode is about.
static LIST: [AceRow; 6] = [
    (ALLOW, 0, 0x27, b"bob"),
    (DENY, 0, 0x01, b"carol"),
    (ALLOW, 0x40, 0x01, b"audit"),
    (ALLOW, 0x0b, 0x27, b"dave"),
    (ALLOW, 0, 0x81, b"EVERYONE@"),
    (ALLOW, 0x03, 0x20, b"erin"),
];

// A mode, a user, a group of the user, and the rights that the user has then.
static GRANTS: [(u16, &[u8], &[u8], u32); 12] = [
    (0o640, b"alice", b"users", 0x87),
    (0o640, b"bob", b"users", 0x81),
    (0o640, b"carol", b"staff", 0x80),
    (0o640, b"frank", b"staff", 0x81),
    (0o640, b"frank", b"audit", 0x81),
    (0o640, b"frank", b"users", 0x80),
    (0o600, b"bob", b"users", 0x80),
    (0o664, b"bob", b"users", 0x87),
    (0o604, b"bob", b"users", 0x80),
    (0o604, b"frank", b"audit", 0x80),
    (0o604, b"frank", b"users", 0x81),
    (0o077, b"alice", b"staff", 0x80),
];

fn changed(alloc: Global, rows: &[AceRow], mode: Mode) -> Result<Acl, PushFault> {
    let list = built(alloc, rows)?;
    kept(chmod(alloc, &list.view(), mode))
}

fn rights_of(
    alloc: Global,
    mode: Mode,
    user: &[u8],
    group: &[u8],
) -> Result<Option<Mask>, PushFault> {
    let list = changed(alloc, &LIST, mode)?;
    let groups = [group];
    Ok(
        match (
            Object::new(b"alice", b"staff"),
            Requester::new(user, &groups),
        ) {
            (Some(object), Some(requester)) => {
                Some(granted(list.aces(), &object, &requester, Mask::ALL))
            }
            _ => None,
        },
    )
}

/// Checks that after each change of the mode a user has the rights of the row, and that the list has the mode.
pub fn check_mode_changes(rt: &impl Abort, alloc: Global) -> Result<(), PushFault> {
    for (bits, user, group, rights) in GRANTS {
        if let Some(mode) = Mode::new(bits) {
            assert!(rt; rights_of(alloc, mode, user, group)? == Mask::new(rights));
            assert!(rt; mode_of(changed(alloc, &LIST, mode)?.aces()) == mode);
        }
    }
    Ok(())
}

#[test]
fn a_mode_change_grants_by_its_row(rt: HostRuntime) {
    assert!(rt; passes(check_mode_changes(&rt, rt.alloc())));
}

/// Checks that a second change to the same mode changes nothing.
pub fn check_second_change(rt: &impl Abort, alloc: Global) -> Result<(), PushFault> {
    for bits in [0o640, 0o604, 0o000, 0o777] {
        if let Some(mode) = Mode::new(bits) {
            let once = changed(alloc, &LIST, mode)?;
            let twice = kept(chmod(alloc, &once.view(), mode))?;
            assert!(rt; twice.len() == once.len());
        }
    }
    Ok(())
}

#[test]
fn a_second_change_to_the_same_mode_adds_nothing(rt: HostRuntime) {
    assert!(rt; passes(check_second_change(&rt, rt.alloc())));
}

// How many ACEs of sixteen rights a list has, and whether it keeps the limit of 65,536 mask bits with the three ACEs
// that the mode 0777 adds. They have four rights each.
const SIZES: [(u32, bool); 2] = [(4_095, true), (4_096, false)];

fn list_of(alloc: Global, count: u32) -> Result<Acl, PushFault> {
    let mut list = Acl::new(alloc);
    for _ in 0..count {
        list.push(AceRef {
            kind: ALLOW,
            flags: Flags::NONE,
            mask: Mask::ALL,
            who: b"bob",
        })?;
    }
    Ok(list)
}

/// Checks that a change above a limit is refused for the limit, and that memory may run out only for another change.
pub fn check_limits(rt: &impl Abort, alloc: Global) -> Result<(), PushFault> {
    for (count, fits) in SIZES {
        let list = list_of(alloc, count)?;
        if let Some(mode) = Mode::new(0o777) {
            match chmod(alloc, &list.view(), mode) {
                Ok(_) => assert!(rt; fits),
                Err(ChmodFault::Limits) => assert!(rt; !fits),
                Err(ChmodFault::Memory) => {
                    assert!(rt; fits);
                    return Err(PushFault::Memory);
                }
            }
        }
    }
    Ok(())
}

#[test]
fn a_change_above_a_limit_is_refused_for_the_limit(rt: HostRuntime) {
    assert!(rt; passes(check_limits(&rt, rt.alloc())));
}
