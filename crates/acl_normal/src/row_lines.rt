//! The text of the rows of one right.
ghost use Rattle.std.specs.Prelude.{◌++◌, ◌∷◌, ◌≡◌};
ghost use Rattle.acl_normal.specs.Common.{[], IfOk, List, map, of_borrowed, OnOk};
ghost use Rattle.acl_nfs4.specs.AceText.{kind_name, space};
ghost use Rattle.acl_normal.specs.Programs.{AreTableOf, group_word, row_line, rows_text};
ghost use Rattle.acl_normal.specs.Tables.{TableRow};

use crate::right_table::{BorrowedRow, borrowed_rows};
use acl_nfs4::Acl;
use acl_perm::{Kind, Mask};
use itoa::Buffer;
use std::alloc::{AllocError, Global};

/// Returns the text of the table of a right: one line for each ACE of the list's normal form that has the right, in
/// order. A line has the place in the given list from which the ACE comes, the kind, `GROUP` for the name of a group or
/// else `-`, and the who, with one space between them (this library's own). For no right the text is empty. It takes
/// time `n log n` for `n` ACEs. Fails if memory runs out.
pub fn table_text(alloc: Global, list: &Acl, right: Mask) -> Result<Vec<u8>, AllocError>
    ensures { IfOk result (λ text. (rows : List TableRow) × AreTableOf right.bits list.now rows
        × (text.items ≡ rows_text rows)) }
{
    let view = list.view();
    let rows = borrowed_rows(alloc, &view, right)?;
    text_of_rows(alloc, &rows)
}

fn text_of_rows(alloc: Global, rows: &[BorrowedRow<'_>]) -> Result<Vec<u8>, AllocError>
    ensures { IfOk result (λ text. text.items ≡ rows_text (map of_borrowed rows.now)) }
{
    let mut text = Vec::new(alloc);
    for row in rows {
        add_line(&mut text, *row)?;
    }
    Ok(text)
}

fn add_line(text: &mut Vec<u8>, row: BorrowedRow<'_>) -> Result<(), AllocError>
    ensures { OnOk result (text.new.items ≡ text.old.items ++ row_line (of_borrowed row.entry)) }
{
    let mut buffer = Buffer::new();
    text.extend_from_slice(buffer.format(row.source).as_bytes())?;
    text.extend_from_slice(words_between(row.kind, row.group))?;
    text.extend_from_slice(row.who)?;
    text.push(b'\n')?;
    Ok(())
}

// The words between the place and the who, with a space before, between and after them.
fn words_between(kind: Kind, group: bool) -> &'static [u8]
    ensures { result.now
        ≡ space ∷ (kind_name kind ++ space ∷ (group_word group ++ space ∷ [])) }
{
    match (kind, group) {
        (Kind::Allow, true) => b" ALLOW GROUP ",
        (Kind::Allow, false) => b" ALLOW - ",
        (Kind::Deny, true) => b" DENY GROUP ",
        (Kind::Deny, false) => b" DENY - ",
    }
}
