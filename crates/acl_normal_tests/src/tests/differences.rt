//! Differences of worked pairs of lists. The small situations and their order are those of docs/reference/lists.md, and
//! what the lists grant there follows from the first match (RFC 8881, section 6.2.1). `grants` shows each difference
//! too.

use super::harness::{EXECUTE, GROUP, INHERIT_ONLY, READ_DATA, WRITE_DATA};
use acl_eval::grants;
use acl_lists_for_tests::{ALLOW, AceRow, DENY, built, kept, passes};
use acl_nfs4::{Acl, PushFault};
use acl_normal::{Difference, compare, plain};
use acl_perm::Mask;
use std::alloc::{AllocError, Global};
use std::process::Abort;

/// A difference: the owner, the owning group, the user, the groups, the right, and whether the first list grants it.
pub type Expected = (
    &'static [u8],
    &'static [u8],
    &'static [u8],
    &'static [&'static [u8]],
    u32,
    bool,
);

// Pairs of lists, and the first small situation in which they differ.
static PAIRS: [(&[AceRow], &[AceRow], Option<Expected>); 18] = [
    (
        &[
            (DENY, 0, READ_DATA, b"bob"),
            (ALLOW, 0, READ_DATA, b"alice"),
        ],
        &[
            (ALLOW, 0, READ_DATA, b"alice"),
            (DENY, 0, READ_DATA, b"bob"),
        ],
        None,
    ),
    // A user and a group of one name.
    (
        &[
            (ALLOW, 0, READ_DATA, b"ops"),
            (DENY, GROUP, READ_DATA, b"ops"),
        ],
        &[
            (DENY, GROUP, READ_DATA, b"ops"),
            (ALLOW, 0, READ_DATA, b"ops"),
        ],
        Some((b"oooo", b"gggg", b"ops", &[b"ops"], READ_DATA, true)),
    ),
    // A member of the owning group, which is named too.
    (
        &[
            (DENY, GROUP, READ_DATA, b"staff"),
            (ALLOW, 0, READ_DATA, b"GROUP@"),
        ],
        &[(ALLOW, 0, READ_DATA, b"GROUP@")],
        Some((
            b"oooooo",
            b"staff",
            b"uuuuuu",
            &[b"staff"],
            READ_DATA,
            false,
        )),
    ),
    (
        &[],
        &[(ALLOW, 0, WRITE_DATA, b"EVERYONE@")],
        Some((b"o", b"g", b"u", &[], WRITE_DATA, false)),
    ),
    (
        &[(ALLOW, 0, READ_DATA | EXECUTE, b"OWNER@")],
        &[(ALLOW, 0, READ_DATA, b"OWNER@")],
        Some((b"u", b"g", b"u", &[], EXECUTE, true)),
    ),
    // A user who is the owner.
    (
        &[
            (ALLOW, 0, READ_DATA, b"bob"),
            (DENY, 0, READ_DATA, b"OWNER@"),
        ],
        &[
            (DENY, 0, READ_DATA, b"OWNER@"),
            (ALLOW, 0, READ_DATA, b"bob"),
        ],
        Some((b"bob", b"gggg", b"bob", &[], READ_DATA, true)),
    ),
    // The lowest of several rights.
    (
        &[(ALLOW, 0, EXECUTE | WRITE_DATA, b"EVERYONE@")],
        &[],
        Some((b"o", b"g", b"u", &[], WRITE_DATA, true)),
    ),
    // The owning group alone has a strange name, and the user is in it.
    (
        &[(ALLOW, 0, READ_DATA, b"GROUP@")],
        &[],
        Some((b"o", b"g", b"u", &[b"g"], READ_DATA, true)),
    ),
    // An ACE without rights mentions whom it names, and an ACE that is only inherited does not.
    (
        &[
            (DENY, 0, 0, b"alice"),
            (ALLOW, INHERIT_ONLY, READ_DATA, b"robert"),
        ],
        &[(ALLOW, 0, READ_DATA, b"EVERYONE@")],
        Some((b"oooooo", b"gggggg", b"uuuuuu", &[], READ_DATA, false)),
    ),
    // One principal before two.
    (
        &[
            (ALLOW, 0, READ_DATA, b"amy"),
            (DENY, GROUP, READ_DATA, b"ops"),
            (ALLOW, 0, WRITE_DATA, b"bob"),
        ],
        &[
            (DENY, GROUP, READ_DATA, b"ops"),
            (ALLOW, 0, READ_DATA, b"amy"),
        ],
        Some((b"oooo", b"gggg", b"bob", &[], WRITE_DATA, true)),
    ),
    // Two groups, in order of bytes.
    (
        &[
            (DENY, GROUP, READ_DATA, b"b"),
            (ALLOW, GROUP, READ_DATA, b"a"),
        ],
        &[
            (ALLOW, GROUP, READ_DATA, b"a"),
            (DENY, GROUP, READ_DATA, b"b"),
        ],
        Some((b"oo", b"gg", b"uu", &[b"a", b"b"], READ_DATA, false)),
    ),
    // One more ACE at the front, which denies a right that nobody is allowed.
    (
        &[
            (ALLOW, 0, READ_DATA, b"bob"),
            (ALLOW, 0, WRITE_DATA, b"amy"),
        ],
        &[
            (DENY, 0, EXECUTE, b"carl"),
            (ALLOW, 0, READ_DATA, b"bob"),
            (ALLOW, 0, WRITE_DATA, b"amy"),
        ],
        None,
    ),
    // One more ACE, which takes no part.
    (
        &[
            (DENY, GROUP, READ_DATA, b"ops"),
            (ALLOW, 0, READ_DATA, b"bob"),
        ],
        &[
            (ALLOW, INHERIT_ONLY, READ_DATA | WRITE_DATA, b"ops"),
            (DENY, GROUP, READ_DATA, b"ops"),
            (ALLOW, 0, READ_DATA, b"bob"),
        ],
        None,
    ),
    // Two ACEs in the opposite order, on one right of two.
    (
        &[
            (ALLOW, 0, READ_DATA, b"amy"),
            (DENY, GROUP, WRITE_DATA, b"ops"),
            (ALLOW, 0, WRITE_DATA, b"bob"),
        ],
        &[
            (ALLOW, 0, READ_DATA, b"amy"),
            (ALLOW, 0, WRITE_DATA, b"bob"),
            (DENY, GROUP, WRITE_DATA, b"ops"),
        ],
        Some((b"oooo", b"gggg", b"bob", &[b"ops"], WRITE_DATA, false)),
    ),
    // One right less, on which two principals differ together, but neither does alone.
    (
        &[
            (DENY, 0, READ_DATA | WRITE_DATA, b"bob"),
            (ALLOW, GROUP, READ_DATA | WRITE_DATA, b"staff"),
        ],
        &[
            (DENY, 0, READ_DATA, b"bob"),
            (ALLOW, GROUP, READ_DATA | WRITE_DATA, b"staff"),
        ],
        Some((b"oooooo", b"gggggg", b"bob", &[b"staff"], WRITE_DATA, false)),
    ),
    // An ACE of everyone decides before one of a user, and another one after it.
    (
        &[
            (ALLOW, 0, READ_DATA, b"EVERYONE@"),
            (DENY, 0, READ_DATA | WRITE_DATA, b"bob"),
            (ALLOW, 0, WRITE_DATA, b"EVERYONE@"),
        ],
        &[(ALLOW, 0, READ_DATA | WRITE_DATA, b"EVERYONE@")],
        Some((b"oooo", b"gggg", b"bob", &[], WRITE_DATA, false)),
    ),
    // One more ACE in the middle and one right less after it, of which nothing is seen.
    (
        &[
            (ALLOW, GROUP, READ_DATA, b"ops"),
            (ALLOW, 0, READ_DATA, b"EVERYONE@"),
            (DENY, 0, READ_DATA | EXECUTE, b"bob"),
        ],
        &[
            (ALLOW, GROUP, READ_DATA, b"ops"),
            (ALLOW, 0, READ_DATA, b"amy"),
            (ALLOW, 0, READ_DATA, b"EVERYONE@"),
            (DENY, 0, EXECUTE, b"bob"),
        ],
        None,
    ),
    (&[], &[], None),
];

fn same_names(names: &[Vec<u8>], others: &[&[u8]]) -> bool {
    for (name, other) in names.iter().zip(others) {
        if name.as_slice() != *other {
            return false;
        }
    }
    names.len() == others.len()
}

fn is_as_expected(
    d: &Difference,
    (owner, group, user, groups, right, first_grants): Expected,
) -> bool {
    d.owner.as_slice() == owner
        && d.group.as_slice() == group
        && d.user.as_slice() == user
        && same_names(&d.groups, groups)
        && d.bit.bits() == right
        && d.first_grants == first_grants
}

/// Returns whether the answer is the expected one.
pub fn is_expected(answer: &Option<Difference>, expected: Option<Expected>) -> bool {
    match (answer, expected) {
        (None, None) => true,
        (Some(d), Some(expected)) => is_as_expected(d, expected),
        _ => false,
    }
}

/// Returns whether the first list grants the requester the right exactly as the difference says, and the second list
/// does the opposite.
pub fn is_shown_by_grants(first: &Acl, second: &Acl, d: &Difference) -> bool {
    let names = d.requester_names();
    let (object, requester) = (d.object(), names.requester());
    let one = grants(first.aces(), &object, &requester, d.bit);
    let other = grants(second.aces(), &object, &requester, d.bit);
    one == d.first_grants && other != d.first_grants && Mask::from(d.right()) == d.bit
}

// Returns whether the search finds this difference, and `grants` shows it.
fn is_found(
    alloc: Global,
    first: &Acl,
    second: &Acl,
    expected: Option<Expected>,
) -> Result<bool, AllocError> {
    let found = compare(alloc, first, second)?;
    let is_shown = match &found {
        Some(d) => is_shown_by_grants(first, second, d),
        None => true,
    };
    Ok(is_shown && is_expected(&found, expected))
}

// Returns whether the plain search finds this difference.
fn is_found_plainly(
    alloc: Global,
    first: &Acl,
    second: &Acl,
    expected: Option<Expected>,
) -> Result<bool, AllocError> {
    let found = plain::compare(alloc, first, second)?;
    Ok(is_expected(&found, expected))
}

/// Both searches find the first small situation of each pair.
pub fn worked_pairs(rt: &impl Abort, alloc: Global) -> Result<(), PushFault> {
    for (rows, others, expected) in &PAIRS {
        let first = built(alloc, rows)?;
        let second = built(alloc, others)?;
        assert!(rt; kept(is_found(alloc, &first, &second, *expected))?);
        assert!(rt; kept(is_found_plainly(alloc, &first, &second, *expected))?);
    }
    Ok(())
}

#[test]
fn compare_finds_the_first_small_situation_in_which_two_lists_differ(rt: HostRuntime) {
    assert!(rt; passes(worked_pairs(&rt, rt.alloc())));
}
