//! The mode and the mask of a list (acl(5), "CORRESPONDENCE BETWEEN ACL ENTRIES AND FILE PERMISSION BITS"), and changes
//! of one entry as `setfacl -n` makes them.

use super::harness::Who::{Amy, Bob, Eve, Group, Guests, Mask, Other, Owner, Staff};
use super::harness::{
    DEFAULT, MASKED, Memory, NO_OWNER, ORDERED, Rows, SHARED, TWO_GROUPS, Who, has_rows, perm_of,
};
use acl_perm::{Mode, Perm};
use acl_posix::*;
use std::process::Abort;

// Entries with their permissions, and the permissions that the mask leaves.
static EFFECTIVE: [(Who, u8, u8); 6] = [
    (Owner, 6, 6),
    (Amy, 6, 4),
    (Group, 4, 4),
    (Staff, 6, 4),
    (Mask, 4, 4),
    (Other, 4, 4),
];

fn is_effective(acl: &PosixAcl, tag: Tag, perm: u8, effective: u8) -> bool {
    match Perm::new(perm) {
        Some(perm) => acl.effective(Entry { tag, perm }).bits == effective,
        None => false,
    }
}

/// Runs the tables of this file.
pub fn tables<A: Abort>(rt: &A, memory: Memory) {
    effective_permissions(rt, memory);
    modes(rt, memory);
    changed_lists(rt, memory);
    changed_entries(rt, memory);
}

// The mask limits the entries of a list.
fn effective_permissions<A: Abort>(rt: &A, memory: Memory) {
    let acl = match memory.acl(SHARED) {
        Ok(acl) => acl,
        Err(fault) => {
            assert!(rt; memory.may_run_out(Some(fault)));
            return;
        }
    };
    assert!(rt; has_rows(&acl, (ORDERED, b"664644")));
    for (who, perm, effective) in EFFECTIVE {
        assert!(rt;
            is_effective(&acl, who.tag(), perm, effective),
            "of {who:?}"
        );
    }
}

fn has_mode(memory: Memory, rows: Rows, mode: u16) -> bool {
    match memory.acl(rows) {
        Ok(acl) => acl.mode().bits == mode,
        Err(fault) => memory.may_run_out(Some(fault)),
    }
}

// Lists with a mask and without one have these modes.
fn modes<A: Abort>(rt: &A, memory: Memory) {
    let table: [(Rows, u16); 4] = [
        (SHARED, 0o644),
        (MASKED, 0o747),
        (NO_OWNER, 0o077),
        (TWO_GROUPS, 0o760),
    ];
    for (rows, mode) in table {
        assert!(rt; has_mode(memory, rows, mode), "of mode {mode:o}");
    }
}

fn check_changes<A: Abort>(rt: &A, acl: &mut PosixAcl) {
    acl.chmod(Mode { bits: 0o660 });
    assert!(rt; has_rows(acl, (ORDERED, b"664660")));
    acl.chmod(Mode { bits: 0o644 });
    assert!(rt; acl.calc_mask().is_ok());
    assert!(rt; has_rows(acl, (ORDERED, b"664664")));
}

// A list has these entries after its mode is set, and after its mask is calculated.
fn changed_lists<A: Abort>(rt: &A, memory: Memory) {
    match memory.acl(SHARED) {
        Ok(mut acl) => check_changes(rt, &mut acl),
        Err(fault) => assert!(rt; memory.may_run_out(Some(fault))),
    }
}

// A list, an entry with the digit to set, or without a digit if the entry is to be removed, and the resulting list or
// fault of `setfacl -n`.
type Row = (Rows, Who, Option<u8>, Result<Rows, AclFault>);

// A list without the mask that it needs is refused: setfacl reports that it is malformed, and acl_check reports
// "Missing entries".
const ONE_ENTRY: [Row; 9] = [
    (
        NO_OWNER,
        Owner,
        Some(b'6'),
        Ok((&[Owner, Group, Other], b"677")),
    ),
    (NO_OWNER, Bob, Some(b'4'), Err(AclFault::Miss(Tag::Mask))),
    (
        NO_OWNER,
        Mask,
        Some(b'4'),
        Ok((&[Owner, Group, Mask, Other], b"0747")),
    ),
    (
        DEFAULT,
        Guests,
        Some(b'4'),
        Ok((&[Owner, Eve, Group, Guests, Mask, Other], b"775475")),
    ),
    (DEFAULT, Mask, None, Err(AclFault::Miss(Tag::Mask))),
    (
        DEFAULT,
        Eve,
        None,
        Ok((&[Owner, Group, Mask, Other], b"7575")),
    ),
    (MASKED, Mask, None, Ok((&[Owner, Group, Other], b"777"))),
    (MASKED, Other, None, Err(AclFault::Miss(Tag::Other))),
    (MASKED, Amy, None, Ok(MASKED)),
];

fn change(acl: &mut PosixAcl, who: Who, digit: Option<u8>) -> Result<(), AclFault> {
    match digit.and_then(perm_of) {
        Some(perm) => acl.set(who.tag(), perm),
        None => acl.remove(who.tag()),
    }
}

// Returns whether the changed list has these rows and the entry has the permissions that were set.
fn is_set(acl: &PosixAcl, after: Rows, who: Who, digit: Option<u8>) -> bool {
    has_rows(acl, after) && acl.get(who.tag()) == digit.and_then(perm_of)
}

// Returns whether a change may fail with this fault.
fn may_fail(memory: Memory, fault: AclFault, wanted: Result<Rows, AclFault>) -> bool {
    match wanted {
        Ok(_) => memory.may_run_out(Some(fault)),
        Err(wanted) => fault == wanted,
    }
}

// Changes a list of these rows, and returns whether it is as wanted. A call that fails must leave the rows as they
// were.
fn is_as_wanted(memory: Memory, acl: &mut PosixAcl, (rows, who, digit, wanted): Row) -> bool {
    match change(acl, who, digit) {
        Ok(()) => match wanted {
            Ok(after) => is_set(acl, after, who, digit),
            Err(_) => false,
        },
        Err(fault) => may_fail(memory, fault, wanted) && has_rows(acl, rows),
    }
}

fn is_changed(memory: Memory, row: Row) -> bool {
    match memory.acl(row.0) {
        Ok(mut acl) => is_as_wanted(memory, &mut acl, row),
        Err(fault) => memory.may_run_out(Some(fault)),
    }
}

// One entry of a list is set or removed.
fn changed_entries<A: Abort>(rt: &A, memory: Memory) {
    for row in ONE_ENTRY {
        assert!(rt; is_changed(memory, row));
    }
}
