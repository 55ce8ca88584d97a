//! The text in words of who has one right.
ghost use Rattle.std.specs.Prelude.{◌++◌, ◌≡◌, reverse};
ghost use Rattle.acl_normal.specs.Common.{IfOk, map, of_borrowed, OnOk};
ghost use Rattle.acl_contain.specs.Holders.{AreHolders, later_words, link_word, not_word, row_words, rows_words, who_words};

use acl_nfs4::Acl;
use acl_nfs4::internal::{EVERYONE_NAME, GROUP_NAME, OWNER_NAME};
use acl_normal::{BorrowedRow, borrowed_rows};
use acl_perm::{Kind, Mask};
use std::alloc::{AllocError, Global};

/// Returns in words who has a right: one line for each row of the table of the right, from the last row to the first,
/// or `nobody` if there is no row (this library's own). A line has whom the row names (`user bob`, `group staff`, `the
/// owner`, `the owning group` or `everybody`), and `not` before it if the row denies. A later line begins with `and` if
/// its row has the same kind as the row of the line before it, and else with `but`. Of the lines that are about a
/// requester, the last one decides; if none is, the requester does not have the right. If `right` has several rights,
/// the text is about the lowest one; if it has none, the text says `nobody`. It takes time `n log n` for `n` ACEs.
/// Fails if memory runs out.
///
/// ```rust
/// let list = parse_text(alloc, b"ALLOW - READ_DATA amy\nDENY GROUP READ_DATA temps\nALLOW - READ_DATA EVERYONE@\n")?;
/// let text = holders(alloc, &list, Mask::READ_DATA)?;
/// assert!(rt; text.as_slice() == b"everybody\nbut not group temps\nbut user amy\n".as_slice());
/// ```
pub fn holders(alloc: Global, list: &Acl, right: Mask) -> Result<Vec<u8>, AllocError>
    ensures { IfOk result (λ text. AreHolders right.bits list.now text.items) }
{
    let view = list.view();
    let rows = borrowed_rows(alloc, &view, right)?;
    words_of_table(alloc, rows)
}

// The words of the rows of a table, from the last row to the first.
fn words_of_table(alloc: Global, rows: Vec<BorrowedRow<'_>>) -> Result<Vec<u8>, AllocError>
    ensures { IfOk result (λ text.
        text.items ≡ rows_words (reverse (map of_borrowed rows.entry.items))) }
{
    let turned = turned(rows);
    words_of_rows(alloc, &turned)
}

fn turned<'a>(rows: Vec<BorrowedRow<'a>>) -> Vec<BorrowedRow<'a>>
    ensures { map of_borrowed result.items ≡ reverse (map of_borrowed rows.entry.items) }
{
    let mut turned = rows;
    turned.reverse();
    turned
}

fn words_of_rows(alloc: Global, rows: &[BorrowedRow<'_>]) -> Result<Vec<u8>, AllocError>
    ensures { IfOk result (λ text. text.items ≡ rows_words (map of_borrowed rows.now)) }
{
    let mut text = Vec::new(alloc);
    let Some((first, rest)) = rows.split_first() else {
        text.extend_from_slice(b"nobody\n")?;
        return Ok(text);
    };
    add_row(&mut text, *first)?;
    add_later(&mut text, first.kind, rest)?;
    Ok(text)
}

// Adds the lines of the rows after a row of a kind.
fn add_later(text: &mut Vec<u8>, first: Kind, rows: &[BorrowedRow<'_>]) -> Result<(), AllocError>
    ensures { OnOk result (text.new.items
        ≡ text.old.items ++ later_words first (map of_borrowed rows.now)) }
{
    let mut before = first;
    for row in rows {
        text.extend_from_slice(link_word(before, row.kind))?;
        add_row(text, *row)?;
        before = row.kind;
    }
    Ok(())
}

// Adds what a row says, and a line feed.
fn add_row(text: &mut Vec<u8>, row: BorrowedRow<'_>) -> Result<(), AllocError>
    ensures { OnOk result (text.new.items ≡ text.old.items ++ row_words (of_borrowed row.entry)) }
{
    text.extend_from_slice(not_word(row.kind))?;
    add_who(text, row.group, row.who)?;
    text.push(b'\n')?;
    Ok(())
}

// Adds whom a who names.
fn add_who(text: &mut Vec<u8>, group: bool, who: &[u8]) -> Result<(), AllocError>
    ensures { OnOk result (text.new.items ≡ text.old.items ++ who_words group who.now) }
{
    if group {
        text.extend_from_slice(b"group ")?;
        return text.extend_from_slice(who);
    }
    if who == OWNER_NAME.as_bytes() {
        text.extend_from_slice(b"the owner")
    } else if who == GROUP_NAME.as_bytes() {
        text.extend_from_slice(b"the owning group")
    } else if who == EVERYONE_NAME.as_bytes() {
        text.extend_from_slice(b"everybody")
    } else {
        text.extend_from_slice(b"user ")?;
        text.extend_from_slice(who)
    }
}

// The word before whom a row denies.
fn not_word(kind: Kind) -> &'static [u8]
    ensures { result.now ≡ not_word kind }
{
    match kind {
        Kind::Allow => b"",
        Kind::Deny => b"not ",
    }
}

// The word between a row and the next row.
fn link_word(before: Kind, kind: Kind) -> &'static [u8]
    ensures { result.now ≡ link_word before kind }
{
    if before == kind { b"and " } else { b"but " }
}
