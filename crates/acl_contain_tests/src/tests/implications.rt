//! Whether whoever gets one right also gets others: worked lists, and all short lists over a few principals, of which
//! `grants` must say the same for all requesters of a small world. What the lists grant follows from the first match
//! (RFC 8881, section 6.2.1), and the order of the small situations is that of docs/reference/lists.md.

use super::expected::{Expected, is_expected};
use super::lists::{AMY, EVERYONE, EXECUTE, GROUP, INHERIT_ONLY, NO_WRITE, READ_DATA, WRITE_DATA};
use acl_contain::implies;
use acl_eval::{Object, Requester, grants};
use acl_lists_for_tests::{ALLOW, AceRow, DENY, built, kept, passes};
use acl_nfs4::{Acl, PushFault};
use acl_normal::Difference;
use acl_perm::{Mask, Right};
use std::alloc::{AllocError, Global};
use std::process::Abort;
use std::test::Fail;

// The numbers of READ_DATA, WRITE_DATA and EXECUTE.
const READ: usize = 0;

const WRITE: usize = 1;

const RUN: usize = 5;

// A list, the number of a right, the others, and the first small situation in which one of the others is missing.
static LISTS: [(&[AceRow], usize, u32, Option<Expected>); 11] = [
    (&[], WRITE, READ_DATA, None),
    (&[EVERYONE], READ, READ_DATA, None),
    (&[EVERYONE], READ, 0, None),
    (
        &[EVERYONE],
        READ,
        READ_DATA | EXECUTE,
        Some((b"o", b"g", b"u", &[], EXECUTE, false)),
    ),
    // The owner may read and write, but bob may not write.
    (&NO_WRITE, WRITE, READ_DATA, None),
    (
        &NO_WRITE,
        READ,
        WRITE_DATA,
        Some((b"bob", b"gggg", b"bob", &[], WRITE_DATA, false)),
    ),
    // The lowest of two others.
    (
        &[(ALLOW, 0, EXECUTE, b"amy")],
        RUN,
        READ_DATA | WRITE_DATA,
        Some((b"oooo", b"gggg", b"amy", &[], READ_DATA, false)),
    ),
    // A member of two groups.
    (
        &[
            (DENY, GROUP, READ_DATA, b"a"),
            (ALLOW, GROUP, READ_DATA | WRITE_DATA, b"b"),
        ],
        WRITE,
        READ_DATA,
        Some((b"oo", b"gg", b"uu", &[b"a", b"b"], READ_DATA, false)),
    ),
    // No requester is two users.
    (
        &[
            (DENY, 0, READ_DATA, b"bob"),
            (ALLOW, 0, READ_DATA | WRITE_DATA, b"amy"),
        ],
        WRITE,
        READ_DATA,
        None,
    ),
    // An ACE that is only inherited does not grant.
    (
        &[AMY, (ALLOW, INHERIT_ONLY, WRITE_DATA, b"EVERYONE@")],
        WRITE,
        READ_DATA,
        None,
    ),
    (
        &[AMY, (ALLOW, INHERIT_ONLY, WRITE_DATA, b"EVERYONE@")],
        READ,
        WRITE_DATA,
        Some((b"oooo", b"gggg", b"amy", &[], WRITE_DATA, false)),
    ),
];

fn is_found(
    alloc: Global,
    list: &Acl,
    right: usize,
    others: u32,
    expected: Option<Expected>,
) -> Result<bool, AllocError> {
    let (Some(right), Some(others)) = (Right::new(right), Mask::new(others)) else {
        return Ok(false);
    };
    let found = implies(alloc, list, right, others)?;
    Ok(is_expected(&found, expected))
}

/// The first small situation of each list is found.
pub fn worked_implications(rt: &impl Abort, alloc: Global) -> Result<(), PushFault> {
    for (rows, right, others, expected) in &LISTS {
        let list = built(alloc, rows)?;
        assert!(rt; kept(is_found(alloc, &list, *right, *others, *expected))?);
    }
    Ok(())
}

#[test]
fn implies_finds_the_first_small_situation_in_which_a_right_is_missing(rt: HostRuntime) {
    assert!(rt; passes(worked_implications(&rt, rt.alloc())));
}

// The rows of the short lists.
static FEW: [AceRow; 14] = [
    (ALLOW, 0, READ_DATA, b"OWNER@"),
    (ALLOW, 0, WRITE_DATA, b"OWNER@"),
    (DENY, 0, READ_DATA, b"OWNER@"),
    (DENY, 0, WRITE_DATA, b"OWNER@"),
    (ALLOW, 0, READ_DATA, b"a"),
    (ALLOW, 0, WRITE_DATA, b"a"),
    (DENY, 0, READ_DATA, b"a"),
    (DENY, 0, WRITE_DATA, b"a"),
    (ALLOW, GROUP, READ_DATA, b"x"),
    (ALLOW, GROUP, WRITE_DATA, b"x"),
    (DENY, GROUP, READ_DATA, b"x"),
    (DENY, GROUP, WRITE_DATA, b"x"),
    (ALLOW, 0, READ_DATA, b"EVERYONE@"),
    (ALLOW, 0, WRITE_DATA, b"EVERYONE@"),
];

// An owner, a user and the groups of that user, for each choice of OWNER@, the user a and the group x that match.
static WORLD: [(&[u8], &[u8], &[&[u8]]); 8] = [
    (b"o", b"u", &[]),
    (b"u", b"u", &[]),
    (b"o", b"a", &[]),
    (b"a", b"a", &[]),
    (b"o", b"u", &[b"x"]),
    (b"u", b"u", &[b"x"]),
    (b"o", b"a", &[b"x"]),
    (b"a", b"a", &[b"x"]),
];

// At most three of the rows, by a number.
fn short_rows(alloc: Global, number: usize) -> Result<Vec<AceRow>, AllocError> {
    let mut rows = Vec::new(alloc);
    for place in [number / 225, number / 15 % 15, number % 15] {
        if let Some(row) = FEW.get(place) {
            rows.push(*row)?;
        }
    }
    Ok(rows)
}

/// A list of at most three of the rows, by a number.
pub fn short_list(alloc: Global, number: usize) -> Result<Acl, PushFault> {
    let rows = kept(short_rows(alloc, number))?;
    built(alloc, &rows)
}

// Returns whether the list grants WRITE_DATA and denies READ_DATA.
fn is_missing(list: &Acl, object: &Object<'_>, requester: &Requester<'_>) -> bool {
    grants(list.aces(), object, requester, Mask::WRITE_DATA)
        && !grants(list.aces(), object, requester, Mask::READ_DATA)
}

// Returns whether a requester of the small world may write and may not read.
fn is_missing_somewhere(list: &Acl) -> bool {
    for (owner, user, groups) in &WORLD {
        if let (Some(object), Some(requester)) = (
            Object::new(owner, b"g"),
            Requester::new(user, groups),
        )
            && is_missing(list, &object, &requester)
        {
            return true;
        }
    }
    false
}

// Returns whether READ_DATA is missing for a requester of the difference.
fn is_missing_at(list: &Acl, d: &Difference) -> bool {
    let names = d.requester_names();
    is_missing(list, &d.object(), &names.requester())
}

// Returns whether the right to write does not imply the right to read. The small world must show the same.
fn is_not_implied(
    rt: &impl Abort,
    alloc: Global,
    list: &Acl,
    write: Right,
) -> Result<bool, AllocError> {
    let found = implies(alloc, list, write, Mask::READ_DATA)?;
    assert!(rt; found.is_some() == is_missing_somewhere(list));
    assert!(rt; found.as_ref().is_none_or(|d| is_missing_at(list, d)));
    Ok(found.is_some())
}

mod ample {
    use super::*;

    #[test]
    fn implies_says_of_all_short_lists_what_each_requester_shows(
        rt: HostRuntime,
    ) -> Result<(), Fail> {
        let write = Right::new(WRITE).ok_or("WRITE_DATA is a right")?;
        let (mut implied, mut missing) = (0u32, 0u32);
        for number in 0..3_375 {
            let list = short_list(rt.alloc(), number)?;
            if is_not_implied(&rt, rt.alloc(), &list, write)? {
                missing = missing.saturating_add(1);
            } else {
                implied = implied.saturating_add(1);
            }
        }
        assert!(rt; implied > 500 && missing > 500, "{implied} {missing}");
        Ok(())
    }
}
