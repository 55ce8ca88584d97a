//! The table of one right: the ACEs of the normal form that have the right, and where they come from.
ghost use Rattle.std.specs.Prelude.{◌<◌, ◌≡◌, All, IsOkAnd};
ghost use Rattle.acl_normal.specs.Common.{[], ace, aces_with, AreRowNumbers, emitted_ace, flags_for, has_bit, IfOk, IsLowest, IsOk, IsTidy, length, map, of_borrowed, OnOk, principal_of, vec_len, ℕ};
ghost use Rattle.acl_perm.specs.Bits.{identifier_group};
ghost use Rattle.acl_normal.specs.Tables.{IsBorrowedTable, IsTable, of_row};
ghost use Rattle.acl_normal.specs.internal.TableRows.{AddsRowOfPlace, AreRowsInPlace, AreRowsOfPlaces, HasFirstPlaces};

use crate::emit::emission::{Emitted, normalize_left};
use crate::emit::rising::rises;
use crate::merged::lowest;
use crate::normal_form::{ace_of, flags_of};
use crate::reduce::reduced_list;
use crate::rows::remaining::Remaining;
use acl_nfs4::{AceRef, Acl, AclView};
use acl_perm::internal::Bit;
use acl_perm::{Kind, Mask};
use std::alloc::{AllocError, Global};

/// One ACE of the normal form that has the right of the table, and the ACE of the given list from which it comes.
#[derive(Debug, Drop)]
pub struct Row {
    /// Whether it denies or allows.
    pub kind: Kind,
    /// The who of the ACE.
    pub who: Vec<u8>,
    /// Whether the who is the name of a group.
    pub group: bool,
    /// The place in the given list, from 0, of the first ACE without INHERIT_ONLY that has the right and names the same
    /// principal.
    pub source: usize,
}

/// A [`Row`] whose who is borrowed from the bytes of the list.
#[derive(Clone, Copy, Debug)]
pub struct BorrowedRow<'a> {
    /// Whether it denies or allows.
    pub kind: Kind,
    /// Whether the who is the name of a group.
    pub group: bool,
    /// The who of the ACE.
    pub who: &'a [u8],
    /// The place in the given list, as in a [`Row`].
    pub source: usize,
}

/// Returns the ACEs of a list's normal form that have a right, in the order of the normal form, each with the place in
/// the list of the first ACE without INHERIT_ONLY that has the right and names the same principal (this library's own,
/// over RFC 8881, section 6.2.1). If `right` has several rights, the table is that of the lowest one; if it has none,
/// the table is empty. Fails if memory runs out.
///
/// ```rust
/// let list = parse_text(alloc, b"DENY - WRITE_DATA bob\nALLOW - READ_DATA|WRITE_DATA OWNER@\n")?;
/// let rows = table(alloc, &list, Mask::WRITE_DATA)?;
/// assert!(rt; rows.len() == 2);
/// assert!(rt; rows.first().is_some_and(|row| row.kind == Kind::Deny && row.source == 0));
/// ```
pub fn table(alloc: Global, list: &Acl, right: Mask) -> Result<Vec<Row>, AllocError>
    ensures rows { IfOk result (λ rows. (b : ℕ) → IsLowest b right.bits
        → IsTable b list.now rows.items) }
    ensures none { right.bits ≡ 0 → IsOkAnd result (λ rows. rows.items ≡ []) }
{
    table_of_view(alloc, &list.view(), right)
}

// Returns the table of the list of a view, and does not copy the list.
fn table_of_view(alloc: Global, list: &AclView<'_>, right: Mask) -> Result<Vec<Row>, AllocError>
    ensures rows { IfOk result (λ rows. (b : ℕ) → IsLowest b right.bits
        → IsTable b list.now rows.items) }
    ensures none { right.bits ≡ 0 → IsOkAnd result (λ rows. rows.items ≡ []) }
{
    let rows = borrowed_rows(alloc, list, right)?;
    owned_rows(alloc, &rows)
}

// The rows, each with a copy of its who.
fn owned_rows(alloc: Global, rows: &[BorrowedRow<'_>]) -> Result<Vec<Row>, AllocError>
    ensures rows { IfOk result (λ table. map of_row table.items ≡ map of_borrowed rows.now) }
    ensures empty { rows.now ≡ [] → IsOk result }
{
    let mut table = Vec::new(alloc);
    for row in rows {
        let who = Vec::from_slice(alloc, row.who)?;
        table.push(Row {
            kind: row.kind,
            who,
            group: row.group,
            source: row.source,
        })?;
    }
    Ok(table)
}

/// Returns the rows of a right of the list of a view, as [`table`] does of a list, but copies no who: each is borrowed
/// from the bytes of the list. The only error is that memory runs out.
///
/// ```rust
/// let list = parse_text(alloc, b"ALLOW - READ_DATA amy\nALLOW - READ_DATA amy\n")?;
/// let bytes = list.to_bytes(alloc)?;
/// let rows = borrowed_rows(alloc, &AclView::parse_whole(&bytes)?, Mask::READ_DATA)?;
/// assert!(rt; rows.len() == 1);
/// assert!(rt; rows.first().is_some_and(|row| row.who == b"amy".as_slice()));
/// ```
pub fn borrowed_rows<'a>(
    alloc: Global,
    list: &AclView<'a>,
    right: Mask,
) -> Result<Vec<BorrowedRow<'a>>, AllocError>
    ensures rows { IfOk result (λ rows. (b : ℕ) → IsLowest b right.bits
        → IsBorrowedTable b list.now rows.items) }
    ensures none { right.bits ≡ 0 → IsOkAnd result (λ rows. rows.items ≡ []) }
{
    let Some(right) = lowest(right) else {
        return Ok(Vec::new(alloc));
    };
    rows_of_right(alloc, list, right)
}

// Returns the table of a right. If the list is in the order of its normal form already, nothing is emitted.
fn rows_of_right<'a>(
    alloc: Global,
    list: &AclView<'a>,
    right: Bit,
) -> Result<Vec<BorrowedRow<'a>>, AllocError>
    ensures { IfOk result (λ rows. IsBorrowedTable right.bit list.now rows.items) }
{
    let reduced = reduced_list(alloc, list)?;
    let aces = reduced.aces.as_slice();
    let masks = reduced.masks.as_slice();
    if rises(aces, masks, &reduced.numbers.rows) {
        // The rest is its own normal form, so each ACE comes from its own place.
        return rows_in_place(alloc, aces, masks, right);
    }
    let places = places(alloc, aces, masks, &reduced.numbers.rows, right)?;
    let mut rows = Remaining::of(alloc, reduced)?;
    let form = normalize_left(alloc, &mut rows)?;
    drop(rows);
    rows_of(alloc, &places, &form, right)
}

// Returns the rows of the ACEs that have the right. The source of each row is the place of its own ACE.
fn rows_in_place<'a>(
    alloc: Global,
    aces: &[AceRef<'a>],
    masks: &[Mask],
    right: Bit,
) -> Result<Vec<BorrowedRow<'a>>, AllocError>
    requires masks { length masks.now ≡ length aces.now }
    requires tidy { IsTidy (aces_with aces.now masks.now) }
    ensures { IfOk result (λ rows.
        AreRowsInPlace right.bit (aces_with aces.now masks.now) rows.items) }
{
    let mut rows = Vec::with_capacity(alloc, aces.len())?;
    for (place, ace) in aces.iter().enumerate() {
        if right.is_in(masks[place]) {
            rows.push(row_at(*ace, place))?;
        }
    }
    Ok(rows)
}

// The row of an ACE at a place. Of the flags, only the one that says whom the ACE names counts.
fn row_at<'a>(item: AceRef<'a>, source: usize) -> BorrowedRow<'a>
    ensures kind { result.kind ≡ item.entry.kind }
    ensures who { result.who.now ≡ item.entry.who.now }
    ensures group { result.group
        ≡ has_bit (flags_for (principal_of (ace item.entry))) identifier_group }
    ensures source { result.source ≡ source }
{
    BorrowedRow {
        kind: item.kind,
        who: item.who,
        group: names_group(item),
        source,
    }
}

// Returns whether the who of an ACE is the name of a group. Without the flag, the who is not read.
#[tactic(auto, using(crate::proofs::InPlace::no_group_name))]
fn names_group(item: AceRef<'_>) -> bool
    ensures { result ≡ has_bit (flags_for (principal_of (ace item.entry))) identifier_group }
{
    item.flags.is_group() && flags_of(item.principal()).is_group()
}

// Returns for each row the place of the ACE that has the right, or 0 if there is no such ACE.
fn places(
    alloc: Global,
    aces: &[AceRef<'_>],
    masks: &[Mask],
    rows: &[usize],
    right: Bit,
) -> Result<Vec<usize>, AllocError>
    requires masks { length masks.now ≡ length aces.now }
    requires tidy { IsTidy (aces_with aces.now masks.now) }
    requires rows { AreRowNumbers (aces_with aces.now masks.now) rows.now }
    ensures count { IfOk result (λ places. vec_len places ≡ length aces.now) }
    ensures places { IfOk result (λ places. HasFirstPlaces right.bit
        (aces_with aces.now masks.now) places.items) }
{
    let mut places = vec![in alloc; 0; aces.len()]?;
    for (place, mask) in masks.iter().enumerate() {
        if right.is_in(*mask) {
            places[rows[place]] = place;
        }
    }
    Ok(places)
}

// Returns the rows of the emitted ACEs that have the right. `places` has, for each row number, the place of the ACE.
fn rows_of<'a>(
    alloc: Global,
    places: &[usize],
    form: &[Emitted<'a>],
    right: Bit,
) -> Result<Vec<BorrowedRow<'a>>, AllocError>
    requires { All (λ e. e.row < length places.now) form.now }
    ensures { IfOk result (λ table.
        AreRowsOfPlaces right.bit places.now form.now table.items) }
{
    let mut table = Vec::new(alloc);
    for item in form {
        add_row(places[item.row], *item, right, &mut table)?;
    }
    Ok(table)
}

// Adds the row of an emitted ACE if the ACE has the right.
fn add_row<'a>(
    place: usize,
    item: Emitted<'a>,
    right: Bit,
    table: &mut Vec<BorrowedRow<'a>>,
) -> Result<(), AllocError>
    ensures { OnOk result (AddsRowOfPlace right.bit place (emitted_ace item.entry)
        table.old.items table.new.items) }
{
    if !right.is_in(item.mask) {
        return Ok(());
    }
    let shown = ace_of(item);
    table.push(BorrowedRow {
        kind: shown.kind,
        who: shown.who,
        group: shown.flags.is_group(),
        source: place,
    })?;
    Ok(())
}
