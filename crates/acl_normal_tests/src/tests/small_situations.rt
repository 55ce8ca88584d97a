//! The property that the comparison finds the same as the plain search, which tries all small situations in the order
//! of docs/reference/lists.md, "Comparison", over lists that look random. `grants` shows each difference too. Where the
//! lists of many groups differ is worked by hand from the first match (RFC 8881, section 6.2.1).

use super::differences::is_shown_by_grants;
use super::harness::{Dice, GROUP, INHERIT_ONLY, READ_DATA};
use acl_lists_for_tests::{ALLOW, AceRow, DENY, ace_of, built, kept};
use acl_nfs4::{Acl, PushFault};
use acl_normal::{Difference, compare, plain};
use acl_perm::Kind;
use std::alloc::{AllocError, Global};
use std::process::Abort;

// Whom the compared lists name.
static PEOPLE: [(u32, &[u8]); 8] = [
    (0, b"OWNER@"),
    (0, b"a"),
    (0, b"ab"),
    (0, b"GROUP@"),
    (GROUP, b"a"),
    (GROUP, b"b"),
    (GROUP | INHERIT_ONLY, b"abc"),
    (0, b"EVERYONE@"),
];

fn any_row(dice: &mut Dice) -> AceRow {
    let kind = if dice.below(2) == 0 { ALLOW } else { DENY };
    let (flags, who) = PEOPLE
        .get(dice.below(8) as usize)
        .copied()
        .unwrap_or((0, b"bob"));
    (kind, flags, dice.below(4), who)
}

fn any_rows(alloc: Global, dice: &mut Dice) -> Result<Vec<AceRow>, AllocError> {
    let mut rows = Vec::new(alloc);
    for _ in 0..dice.below(6).saturating_add(2) {
        rows.push(any_row(dice))?;
    }
    Ok(rows)
}

// The same rows with two of them exchanged or without the last one, or other rows.
fn other_rows(alloc: Global, dice: &mut Dice, rows: &[AceRow]) -> Result<Vec<AceRow>, AllocError> {
    let mut others = Vec::from_slice(alloc, rows)?;
    match dice.below(4) {
        0 => any_rows(alloc, dice),
        1 => {
            others.pop();
            Ok(others)
        }
        _ => {
            let (i, j) = (dice.below(6) as usize, dice.below(6) as usize);
            if i < others.len() && j < others.len() {
                others.swap(i, j);
            }
            Ok(others)
        }
    }
}

// Returns whether two mentioned principals match the requester of the difference. A name that begins with `u` or `g` is
// strange, because no name of these lists begins so.
fn is_of_two(d: &Difference) -> bool {
    let is_named = !d.user.starts_with(b"u");
    let is_owner = d.owner == d.user;
    let is_in_owning_group = d.groups.contains(&d.group);
    let groups = d
        .groups
        .iter()
        .filter(|group| !group.starts_with(b"g"))
        .count();
    let others = usize::from(is_named) + usize::from(is_owner) + usize::from(is_in_owning_group);
    groups.saturating_add(others) == 2
}

/// Returns whether two answers are the same.
pub fn same_difference(d: &Option<Difference>, e: &Option<Difference>) -> bool {
    match (d, e) {
        (None, None) => true,
        (Some(d), Some(e)) => {
            d.owner == e.owner
                && d.group == e.group
                && d.user == e.user
                && d.groups == e.groups
                && d.bit == e.bit
                && d.first_grants == e.first_grants
        }
        _ => false,
    }
}

// Returns whether the plain search finds the same.
fn is_same_plainly(
    alloc: Global,
    first: &Acl,
    second: &Acl,
    found: &Option<Difference>,
) -> Result<bool, AllocError> {
    let slow = plain::compare(alloc, first, second)?;
    Ok(same_difference(found, &slow))
}

// `None` if the lists do not differ, and otherwise whether two principals match in the difference.
fn found_by_both(
    rt: &impl Abort,
    alloc: Global,
    first: &Acl,
    second: &Acl,
) -> Result<Option<bool>, AllocError> {
    let found = compare(alloc, first, second)?;
    assert!(rt; is_same_plainly(alloc, first, second, &found)?);
    match &found {
        None => Ok(None),
        Some(d) => {
            assert!(rt; is_shown_by_grants(first, second, d));
            Ok(Some(is_of_two(d)))
        }
    }
}

fn found_of_rows(
    rt: &impl Abort,
    alloc: Global,
    rows: &[AceRow],
    others: &[AceRow],
) -> Result<Option<bool>, PushFault> {
    let first = built(alloc, rows)?;
    let second = built(alloc, others)?;
    kept(found_by_both(rt, alloc, &first, &second))
}

fn found_of_next(
    rt: &impl Abort,
    alloc: Global,
    dice: &mut Dice,
) -> Result<Option<bool>, PushFault> {
    let rows = kept(any_rows(alloc, dice))?;
    let others = kept(other_rows(alloc, dice, &rows))?;
    found_of_rows(rt, alloc, &rows, &others)
}

fn push_group(list: &mut Acl, kind: Kind, number: u8) -> Result<(), PushFault> {
    let who = [b'a' + number / 16, b'a' + number % 16];
    match ace_of((kind, GROUP, READ_DATA, &who)) {
        Some(ace) => list.push(ace),
        None => Ok(()),
    }
}

// DENY for many groups, and ALLOW for one more group before or after the last DENY.
fn many_groups(alloc: Global, count: u8, is_before: bool) -> Result<Acl, PushFault> {
    let mut list = Acl::new(alloc);
    for number in 1..count {
        push_group(&mut list, DENY, number)?;
    }
    if is_before {
        push_group(&mut list, ALLOW, 255)?;
    }
    push_group(&mut list, DENY, 0)?;
    if !is_before {
        push_group(&mut list, ALLOW, 255)?;
    }
    Ok(list)
}

fn found_of_groups(
    rt: &impl Abort,
    alloc: Global,
    count: u8,
    is_before: bool,
) -> Result<Option<bool>, PushFault> {
    let first = many_groups(alloc, count, true)?;
    let second = many_groups(alloc, count, is_before)?;
    kept(found_by_both(rt, alloc, &first, &second))
}

mod ample {
    use super::*;

    #[test]
    fn compare_finds_the_same_difference_as_the_plain_search(
        rt: HostRuntime,
    ) -> Result<(), PushFault> {
        let mut dice = Dice { state: 2026 };
        let (mut same, mut apart, mut by_two) = (0u32, 0u32, 0u32);
        for _ in 0..2_500 {
            match found_of_next(&rt, rt.alloc(), &mut dice)? {
                None => same = same.saturating_add(1),
                Some(is_by_two) => {
                    apart = apart.saturating_add(1);
                    by_two = by_two.saturating_add(u32::from(is_by_two));
                }
            }
        }
        // There are enough pairs of each sort.
        assert!(rt;
            same > 300 && apart > 300 && by_two > 20,
            "{same} {apart} {by_two}"
        );
        Ok(())
    }

    // The lists differ only for a member of two groups, or not at all.
    #[test]
    fn compare_finds_the_pair_of_many_groups_at_which_two_lists_differ(rt: HostRuntime) {
        for count in [41, 64, 128u8] {
            assert!(rt; found_of_groups(&rt, rt.alloc(), count, false) == Ok(Some(true)));
            assert!(rt; found_of_groups(&rt, rt.alloc(), count, true) == Ok(None));
        }
    }
}
