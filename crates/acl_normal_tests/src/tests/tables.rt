//! The tables of single rights of some lists: the ACEs of the normal form that have the right, worked by hand from
//! docs/reference/lists.md ("The normal form").

use super::harness::{AMY, EXECUTE, FOR_FILES, GROUP, NO_WRITE, READ_DATA, STAFF, WRITE_DATA};
use acl_lists_for_tests::{ALLOW, AceRow, DENY, built, kept, passes};
use acl_nfs4::{Acl, PushFault};
use acl_normal::{BorrowedRow, Row, borrowed_rows, table};
use acl_perm::{Kind, Mask};
use std::alloc::{AllocError, Global};
use std::process::Abort;

// A row: the place, the kind, the who, and whether it is the name of a group.
type Shown = (usize, Kind, &'static [u8], bool);

// Amy and bob may not read, whatever a later ACE allows amy, and all others may.
const IN_ORDER: [AceRow; 4] = [
    (DENY, 0, READ_DATA, b"amy"),
    AMY,
    (DENY, 0, READ_DATA, b"bob"),
    (ALLOW, GROUP, READ_DATA | EXECUTE, b"EVERYONE@"),
];

static TABLES: [(&[AceRow], u32, &[Shown]); 11] = [
    (
        &IN_ORDER,
        READ_DATA,
        &[
            (0, DENY, b"amy", false),
            (2, DENY, b"bob", false),
            (3, ALLOW, b"EVERYONE@", false),
        ],
    ),
    (&IN_ORDER, EXECUTE, &[(3, ALLOW, b"EVERYONE@", false)]),
    (
        &NO_WRITE,
        WRITE_DATA,
        &[(0, DENY, b"bob", false), (1, ALLOW, b"OWNER@", false)],
    ),
    (&NO_WRITE, READ_DATA, &[(1, ALLOW, b"OWNER@", false)]),
    (&STAFF, EXECUTE, &[(2, ALLOW, b"EVERYONE@", false)]),
    (
        &STAFF,
        READ_DATA,
        &[(0, DENY, b"staff", true), (1, ALLOW, b"amy", false)],
    ),
    (&FOR_FILES, READ_DATA, &[(1, ALLOW, b"amy", false)]),
    (&FOR_FILES, 0, &[]),
    // Of two rights the lower one counts. In the second list only another ACE has it.
    (
        &IN_ORDER,
        EXECUTE | 0x0010_0000,
        &[(3, ALLOW, b"EVERYONE@", false)],
    ),
    (
        &NO_WRITE,
        READ_DATA | WRITE_DATA,
        &[(1, ALLOW, b"OWNER@", false)],
    ),
    (&STAFF, WRITE_DATA | EXECUTE, &[]),
];

fn is_shown(row: &Row, shown: &Shown) -> bool {
    let (source, kind, who, group) = *shown;
    row.source == source && row.kind == kind && row.who.as_slice() == who && row.group == group
}

fn are_shown(rows: &[Row], wanted: &[Shown]) -> bool {
    for (row, shown) in rows.iter().zip(wanted) {
        if !is_shown(row, shown) {
            return false;
        }
    }
    rows.len() == wanted.len()
}

fn is_borrowed(row: &BorrowedRow<'_>, shown: &Shown) -> bool {
    let (source, kind, who, group) = *shown;
    row.source == source && row.kind == kind && row.who == who && row.group == group
}

fn are_borrowed(rows: &[BorrowedRow<'_>], wanted: &[Shown]) -> bool {
    for (row, shown) in rows.iter().zip(wanted) {
        if !is_borrowed(row, shown) {
            return false;
        }
    }
    rows.len() == wanted.len()
}

fn is_table(alloc: Global, list: &Acl, right: Mask, wanted: &[Shown]) -> Result<bool, AllocError> {
    let rows = table(alloc, list, right)?;
    Ok(are_shown(&rows, wanted))
}

fn is_borrowed_table(
    alloc: Global,
    list: &Acl,
    right: Mask,
    wanted: &[Shown],
) -> Result<bool, AllocError> {
    let view = list.view();
    let rows = borrowed_rows(alloc, &view, right)?;
    Ok(are_borrowed(&rows, wanted))
}

/// Each row has the place of the first ACE of its who that has the right and takes part.
pub fn tables(rt: &impl Abort, alloc: Global) -> Result<(), PushFault> {
    for (lines, bits, wanted) in &TABLES {
        let list = built(alloc, lines)?;
        if let Some(right) = Mask::new(*bits) {
            assert!(rt; kept(is_table(alloc, &list, right, wanted))?);
            assert!(rt; kept(is_borrowed_table(alloc, &list, right, wanted))?);
        }
    }
    Ok(())
}

#[test]
fn each_row_of_a_table_has_the_place_of_the_ace_from_which_it_comes(rt: HostRuntime) {
    assert!(rt; passes(tables(&rt, rt.alloc())));
}
