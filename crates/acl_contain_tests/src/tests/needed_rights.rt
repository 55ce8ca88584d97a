//! The rights of some lists that are needed, worked by hand from RFC 8881, section 6.2.1: for each requester the first
//! ACE that has a right, takes part and matches decides it, and a right that no ACE decides is denied.

use super::lists::{
    AMY, EVERYONE, EXECUTE, FOR_FILES, GROUP, INHERIT_ONLY, NO_STAFF, NO_WRITE, OWNER, READ_DATA,
    STAFF, WRITE_DATA,
};
use acl_contain::needed_of_view;
use acl_eval::{Object, Requester, grants};
use acl_lists_for_tests::{ALLOW, AceRow, DENY, ace_of, built, kept, passes};
use acl_nfs4::{Acl, PushFault};
use acl_perm::Mask;
use std::alloc::{AllocError, Global};
use std::process::Abort;

const BOB: AceRow = (ALLOW, 0, READ_DATA, b"bob");

const NO_BOB: AceRow = (DENY, 0, READ_DATA, b"bob");

const NOBODY: AceRow = (DENY, 0, READ_DATA, b"EVERYONE@");

// Lists, and by place the rights that each ACE needs.
static NEEDED: [(&[AceRow], &[u32]); 19] = [
    (&[], &[]),
    // Of two equal ACEs the second decides nothing.
    (&[AMY, AMY], &[READ_DATA, 0]),
    (
        &[AMY, (ALLOW, 0, READ_DATA | EXECUTE, b"amy")],
        &[READ_DATA, EXECUTE],
    ),
    // A DENY after an ALLOW of the same principal is never reached, or denies what is denied without it.
    (
        &[OWNER, (DENY, 0, READ_DATA | WRITE_DATA, b"OWNER@")],
        &[READ_DATA, 0],
    ),
    // What everyone is allowed, bob need not be allowed, before or after.
    (&[EVERYONE, BOB], &[READ_DATA, 0]),
    (&[BOB, EVERYONE], &[0, READ_DATA]),
    // After everyone is allowed, no DENY is reached; before that it is.
    (&[EVERYONE, NO_BOB], &[READ_DATA, 0]),
    (&[NO_BOB, EVERYONE], &[READ_DATA, READ_DATA]),
    // Bob is denied without a DENY, and no ACE could allow him what alice is allowed.
    (&[NO_BOB, AMY], &[0, READ_DATA]),
    // Amy may be in the group staff, and then the DENY decides if it is before her ALLOW.
    (&[NO_STAFF, AMY], &[READ_DATA, READ_DATA]),
    (&[AMY, NO_STAFF], &[READ_DATA, 0]),
    (&STAFF, &[READ_DATA, READ_DATA, EXECUTE]),
    // Bob may be the owner, and amy too.
    (
        &[AMY, (DENY, 0, READ_DATA, b"OWNER@"), BOB],
        &[READ_DATA, READ_DATA, READ_DATA],
    ),
    (&NO_WRITE, &[WRITE_DATA, READ_DATA | WRITE_DATA]),
    // A user and a group of one name are two principals.
    (
        &[AMY, (ALLOW, GROUP, READ_DATA, b"amy")],
        &[READ_DATA, READ_DATA],
    ),
    // An ACE with INHERIT_ONLY takes no part, and those with other flags do.
    (&FOR_FILES, &[0, READ_DATA]),
    (&[(ALLOW, 0x83, READ_DATA, b"amy")], &[READ_DATA]),
    // What nobody is allowed needs no DENY.
    (&[AMY, NOBODY, BOB], &[READ_DATA, 0, 0]),
    (&[NOBODY, AMY], &[0, 0]),
];

fn are_masks(masks: &[Mask], wanted: &[u32]) -> bool {
    for (mask, bits) in masks.iter().zip(wanted) {
        if mask.bits() != *bits {
            return false;
        }
    }
    masks.len() == wanted.len()
}

fn needs(alloc: Global, list: &Acl, wanted: &[u32]) -> Result<bool, AllocError> {
    let masks = needed_of_view(alloc, &list.view())?;
    Ok(are_masks(&masks, wanted))
}

/// Each worked list needs the rights that stand beside it.
pub fn needed_rights(rt: &impl Abort, alloc: Global) -> Result<(), PushFault> {
    for (lines, wanted) in &NEEDED {
        let list = built(alloc, lines)?;
        assert!(rt; kept(needs(alloc, &list, wanted))?);
    }
    Ok(())
}

#[test]
fn each_worked_list_needs_the_rights_that_decide(rt: HostRuntime) {
    assert!(rt; passes(needed_rights(&rt, rt.alloc())));
}

// ACEs with one right. The last one takes no part, so three of them also stand for lists of fewer ACEs.
static ACES: [AceRow; 13] = [
    (DENY, 0, READ_DATA, b"OWNER@"),
    (DENY, 0, READ_DATA, b"a"),
    (DENY, 0, READ_DATA, b"b"),
    (DENY, 0, READ_DATA, b"GROUP@"),
    (DENY, GROUP, READ_DATA, b"a"),
    (DENY, 0, READ_DATA, b"EVERYONE@"),
    (ALLOW, 0, READ_DATA, b"OWNER@"),
    (ALLOW, 0, READ_DATA, b"a"),
    (ALLOW, 0, READ_DATA, b"b"),
    (ALLOW, 0, READ_DATA, b"GROUP@"),
    (ALLOW, GROUP, READ_DATA, b"a"),
    (ALLOW, 0, READ_DATA, b"EVERYONE@"),
    (ALLOW, INHERIT_ONLY, READ_DATA, b"EVERYONE@"),
];

// Owners and users: each of three users is the owner, and is not.
static USERS: [(&[u8], &[u8]); 6] = [
    (b"a", b"a"),
    (b"c", b"a"),
    (b"b", b"b"),
    (b"c", b"b"),
    (b"c", b"c"),
    (b"a", b"c"),
];

// The groups of a user. The group g is the owning group of the object.
static GROUPS: [&[&[u8]]; 4] = [&[], &[b"a"], &[b"g"], &[b"a", b"g"]];

// All parts of a list of three ACEs that have one right.
static PARTS: [[u32; 3]; 8] = [
    [0, 0, 0],
    [0, 0, READ_DATA],
    [0, READ_DATA, 0],
    [0, READ_DATA, READ_DATA],
    [READ_DATA, 0, 0],
    [READ_DATA, 0, READ_DATA],
    [READ_DATA, READ_DATA, 0],
    [READ_DATA, READ_DATA, READ_DATA],
];

fn reads(list: &Acl, owner: &[u8], user: &[u8], groups: &[&[u8]]) -> bool {
    let (Some(object), Some(requester)) = (Object::new(owner, b"g"), Requester::new(user, groups))
    else {
        return false;
    };
    grants(list.aces(), &object, &requester, Mask::READ_DATA)
}

// Returns who may read, one bit for each requester and object.
fn readers(list: &Acl) -> u32 {
    let mut answers = 0u32;
    for (owner, user) in &USERS {
        for groups in &GROUPS {
            answers = answers << 1 | u32::from(reads(list, owner, user, groups));
        }
    }
    answers
}

// Builds the list of some rows with these masks.
fn cut_to(alloc: Global, rows: &[AceRow], masks: &[u32]) -> Result<Acl, PushFault> {
    let mut cut = Acl::new(alloc);
    for ((kind, flags, _, who), mask) in rows.iter().zip(masks) {
        if let Some(ace) = ace_of((*kind, *flags, *mask, *who)) {
            cut.push(ace)?;
        }
    }
    Ok(cut)
}

fn needed_masks(alloc: Global, list: &Acl) -> Result<Vec<u32>, AllocError> {
    let mut masks = Vec::new(alloc);
    let found = needed_of_view(alloc, &list.view())?;
    for mask in &found {
        masks.push(mask.bits())?;
    }
    Ok(masks)
}

fn count(masks: &[u32]) -> usize {
    masks.iter().filter(|mask| **mask != 0).count()
}

// Returns whether the part with the needed rights is one of the least parts that grant the same.
fn is_least(alloc: Global, rows: &[AceRow]) -> Result<bool, PushFault> {
    let list = built(alloc, rows)?;
    let masks = kept(needed_masks(alloc, &list))?;
    let whole = readers(&list);
    for part in &PARTS {
        if count(part) < count(&masks) && readers(&cut_to(alloc, rows, part)?) == whole {
            return Ok(false);
        }
    }
    let cut = cut_to(alloc, rows, &masks)?;
    Ok(readers(&cut) == whole && cut.len() == list.len())
}

fn are_least_with(
    rt: &impl Abort,
    alloc: Global,
    first: AceRow,
    second: AceRow,
) -> Result<(), PushFault> {
    for third in &ACES {
        assert!(rt; is_least(alloc, &[first, second, *third])?);
    }
    Ok(())
}

mod ample {
    use super::*;

    // 2,197 lists of three ACEs, for 24 requesters and objects.
    #[test]
    fn no_part_of_a_small_list_with_fewer_rights_grants_the_same(
        rt: HostRuntime,
    ) -> Result<(), PushFault> {
        for first in &ACES {
            for second in &ACES {
                are_least_with(&rt, rt.alloc(), *first, *second)?;
            }
        }
        Ok(())
    }
}
