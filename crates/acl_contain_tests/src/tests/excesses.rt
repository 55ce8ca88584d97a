//! Where one list grants more than another: worked pairs of lists. What the lists grant follows from the first match
//! (RFC 8881, section 6.2.1), and the order of the small situations is that of docs/reference/lists.md.

use super::expected::{Expected, is_expected};
use super::lists::{EVERYONE, EXECUTE, GROUP, READ_DATA, WRITE_DATA};
use acl_contain::excess;
use acl_lists_for_tests::{ALLOW, AceRow, DENY, built, kept, passes};
use acl_nfs4::{Acl, PushFault};
use std::alloc::{AllocError, Global};
use std::process::Abort;

const NO_BOB: AceRow = (DENY, 0, READ_DATA, b"bob");

const A: AceRow = (ALLOW, GROUP, READ_DATA, b"a");

const NO_B: AceRow = (DENY, GROUP, READ_DATA, b"b");

const C: AceRow = (ALLOW, GROUP, READ_DATA, b"c");

const NO_C: AceRow = (DENY, GROUP, READ_DATA, b"c");

// Pairs of lists, and the first small situation in which the first list grants more.
static PAIRS: [(&[AceRow], &[AceRow], Option<Expected>); 11] = [
    (&[], &[EVERYONE], None),
    (
        &[EVERYONE],
        &[],
        Some((b"o", b"g", b"u", &[], READ_DATA, true)),
    ),
    // All but bob, and all.
    (&[NO_BOB, EVERYONE], &[EVERYONE], None),
    (
        &[EVERYONE],
        &[NO_BOB, EVERYONE],
        Some((b"oooo", b"gggg", b"bob", &[], READ_DATA, true)),
    ),
    // The owner, and the user bob.
    (
        &[(ALLOW, 0, READ_DATA, b"OWNER@")],
        &[(ALLOW, 0, READ_DATA, b"bob")],
        Some((b"uuuu", b"gggg", b"uuuu", &[], READ_DATA, true)),
    ),
    // A member of two groups, one of which is denied: the order decides, and only one way round.
    (
        &[A, NO_B],
        &[NO_B, A],
        Some((b"oo", b"gg", b"uu", &[b"a", b"b"], READ_DATA, true)),
    ),
    (&[NO_B, A], &[A, NO_B], None),
    // The second list alone allows c, so a member of a and c makes no difference.
    (&[A, NO_C], &[C, A], None),
    // No requester is two users.
    (
        &[(ALLOW, 0, READ_DATA, b"amy"), NO_BOB],
        &[NO_BOB, (ALLOW, 0, READ_DATA, b"amy")],
        None,
    ),
    // The lowest right that the first list alone grants, although the second list alone grants a lower one.
    (
        &[(ALLOW, 0, EXECUTE | WRITE_DATA, b"amy")],
        &[(ALLOW, 0, READ_DATA, b"amy")],
        Some((b"oooo", b"gggg", b"amy", &[], WRITE_DATA, true)),
    ),
    // An ACE without rights mentions bob, and a strange name is longer than his.
    (
        &[EVERYONE, (ALLOW, 0, 0, b"bob")],
        &[],
        Some((b"oooo", b"gggg", b"uuuu", &[], READ_DATA, true)),
    ),
];

fn is_found(
    alloc: Global,
    first: &Acl,
    second: &Acl,
    expected: Option<Expected>,
) -> Result<bool, AllocError> {
    let found = excess(alloc, first, second)?;
    Ok(is_expected(&found, expected))
}

/// The first small situation of each pair is found.
pub fn worked_excesses(rt: &impl Abort, alloc: Global) -> Result<(), PushFault> {
    for (rows, others, expected) in &PAIRS {
        let first = built(alloc, rows)?;
        let second = built(alloc, others)?;
        assert!(rt; kept(is_found(alloc, &first, &second, *expected))?);
    }
    Ok(())
}

#[test]
fn excess_finds_the_first_small_situation_in_which_a_list_grants_more(rt: HostRuntime) {
    assert!(rt; passes(worked_excesses(&rt, rt.alloc())));
}
