//! What a list keeps under a bound: worked lists. Which rights go follows from the first match (RFC 8881, section
//! 6.2.1): those of an ALLOW for which the DENYs before it, and then it, grant somebody more than the bound does.

use super::lists::{AMY, EVERYONE, GROUP, INHERIT_ONLY, READ_DATA, WRITE_DATA};
use acl_contain::{excess, restricted};
use acl_lists_for_tests::{ALLOW, AceRow, DENY, built, kept, passes};
use acl_nfs4::{Acl, PushFault};
use std::alloc::Global;
use std::process::Abort;

const BOB: AceRow = (ALLOW, 0, READ_DATA, b"bob");

const NO_BOB: AceRow = (DENY, 0, READ_DATA, b"bob");

const STAFF: AceRow = (ALLOW, GROUP, READ_DATA, b"staff");

const STAFF_OF_NOTHING: AceRow = (ALLOW, GROUP, 0, b"staff");

const TEMPS: AceRow = (ALLOW, GROUP, READ_DATA, b"temps");

const NO_TEMPS: AceRow = (DENY, GROUP, READ_DATA, b"temps");

const NO_GUESTS: AceRow = (DENY, GROUP, READ_DATA, b"guests");

const EVERYONE_OF_NOTHING: AceRow = (ALLOW, 0, 0, b"EVERYONE@");

// A list, a bound, and what the list keeps.
static ROWS: [(&[AceRow], &[AceRow], &[AceRow]); 20] = [
    (&[], &[EVERYONE], &[]),
    (&[EVERYONE], &[], &[EVERYONE_OF_NOTHING]),
    (&[EVERYONE], &[EVERYONE], &[EVERYONE]),
    // A DENY after the ALLOW does not count, and stays. Each right goes by itself.
    (
        &[(ALLOW, 0, READ_DATA | WRITE_DATA, b"bob"), NO_BOB],
        &[(ALLOW, 0, WRITE_DATA, b"bob")],
        &[(ALLOW, 0, WRITE_DATA, b"bob"), NO_BOB],
    ),
    // Who is in both groups is denied by the bound.
    (&[STAFF], &[NO_TEMPS, EVERYONE], &[STAFF_OF_NOTHING]),
    // The list denies that group before.
    (
        &[NO_TEMPS, STAFF],
        &[NO_TEMPS, EVERYONE],
        &[NO_TEMPS, STAFF],
    ),
    // So it does for the second ALLOW alone.
    (
        &[STAFF, NO_TEMPS, STAFF],
        &[NO_TEMPS, EVERYONE],
        &[STAFF_OF_NOTHING, NO_TEMPS, STAFF],
    ),
    // It denies one of two groups.
    (
        &[NO_TEMPS, STAFF],
        &[NO_TEMPS, NO_GUESTS, EVERYONE],
        &[NO_TEMPS, STAFF_OF_NOTHING],
    ),
    // Nobody is two users.
    (&[AMY], &[NO_BOB, EVERYONE], &[AMY]),
    // Bob may be in the group, and he may be the owner.
    (&[STAFF], &[NO_BOB, EVERYONE], &[STAFF_OF_NOTHING]),
    (
        &[(ALLOW, 0, READ_DATA, b"OWNER@"), BOB],
        &[NO_BOB, EVERYONE],
        &[(ALLOW, 0, 0, b"OWNER@"), (ALLOW, 0, 0, b"bob")],
    ),
    // What the bound allows a group or everyone, no later DENY takes.
    (&[STAFF], &[STAFF, NO_TEMPS], &[STAFF]),
    (&[STAFF], &[EVERYONE, NO_TEMPS], &[STAFF]),
    // One user whom the bound denies.
    (&[EVERYONE], &[NO_BOB, EVERYONE], &[EVERYONE_OF_NOTHING]),
    (
        &[EVERYONE, NO_BOB, EVERYONE],
        &[NO_BOB, EVERYONE],
        &[EVERYONE_OF_NOTHING, NO_BOB, EVERYONE],
    ),
    // After a DENY of everyone nobody gets the right.
    (
        &[(DENY, 0, READ_DATA, b"EVERYONE@"), AMY],
        &[],
        &[(DENY, 0, READ_DATA, b"EVERYONE@"), AMY],
    ),
    // The two lists have the groups in opposite orders.
    (
        &[NO_GUESTS, TEMPS, STAFF],
        &[STAFF, NO_GUESTS, TEMPS],
        &[NO_GUESTS, TEMPS, STAFF],
    ),
    (
        &[TEMPS, NO_GUESTS, STAFF],
        &[STAFF, NO_GUESTS, TEMPS],
        &[(ALLOW, GROUP, 0, b"temps"), NO_GUESTS, STAFF],
    ),
    // An ACE that is for new objects alone grants nobody anything, and a bound's denies nobody.
    (
        &[(ALLOW, INHERIT_ONLY, READ_DATA, b"bob")],
        &[],
        &[(ALLOW, INHERIT_ONLY, READ_DATA, b"bob")],
    ),
    (
        &[BOB],
        &[(DENY, INHERIT_ONLY, READ_DATA, b"bob"), BOB],
        &[BOB],
    ),
];

/// Each list keeps what is expected.
pub fn worked_restrictions(rt: &impl Abort, alloc: Global) -> Result<(), PushFault> {
    for (rows, bound, expected) in &ROWS {
        let list = built(alloc, rows)?;
        let limit = built(alloc, bound)?;
        let wanted = built(alloc, expected)?;
        let left = kept(restricted(alloc, &list, &limit))?;
        assert!(rt; left == wanted);
    }
    Ok(())
}

#[test]
fn a_list_keeps_most_under_a_bound(rt: HostRuntime) {
    assert!(rt; passes(worked_restrictions(&rt, rt.alloc())));
}

static FEW: [AceRow; 6] = [BOB, NO_BOB, STAFF, NO_TEMPS, EVERYONE, AMY];

/// Returns the row, without rights if it is an ALLOW and does not keep them.
pub fn cut(row: AceRow, keeps: bool) -> AceRow {
    let (kind, flags, mask, who) = row;
    let left = if keeps || kind == DENY { mask } else { 0 };
    (kind, flags, left, who)
}

// What a list of two rows keeps, by `excess`: an ALLOW keeps its right if the list grants at most what the bound grants
// when the other ALLOW has none.
fn expected(alloc: Global, first: AceRow, second: AceRow, bound: &Acl) -> Result<Acl, PushFault> {
    let one = built(alloc, &[cut(first, true), cut(second, false)])?;
    let other = built(alloc, &[cut(first, false), cut(second, true)])?;
    let keeps_first = kept(excess(alloc, &one, bound))?.is_none();
    let keeps_second = kept(excess(alloc, &other, bound))?.is_none();
    built(alloc, &[cut(first, keeps_first), cut(second, keeps_second)])
}

// Restricts a list of two rows by a bound of two rows. Returns whether it has lost a right.
fn loses_a_right(
    rt: &impl Abort,
    alloc: Global,
    (first, second): (AceRow, AceRow),
    (third, fourth): (AceRow, AceRow),
) -> Result<bool, PushFault> {
    let list = built(alloc, &[first, second])?;
    let bound = built(alloc, &[third, fourth])?;
    let left = kept(restricted(alloc, &list, &bound))?;
    assert!(rt; left == expected(alloc, first, second, &bound)?);
    Ok(left != list)
}

mod ample {
    use super::*;

    #[test]
    fn each_short_list_keeps_what_exceeds_no_short_bound(rt: HostRuntime) -> Result<(), PushFault> {
        let (mut whole, mut less) = (0u32, 0u32);
        for first in &FEW {
            for second in &FEW {
                for third in &FEW {
                    for fourth in &FEW {
                        if loses_a_right(&rt, rt.alloc(), (*first, *second), (*third, *fourth))? {
                            less = less.saturating_add(1);
                        } else {
                            whole = whole.saturating_add(1);
                        }
                    }
                }
            }
        }
        assert!(rt; whole > 300 && less > 300, "{whole} {less}");
        Ok(())
    }
}
