//! The entries of each part of a text.
ghost use Rattle.std.specs.Prelude.{◌≡◌, MatchResult, OnOk};
ghost use Rattle.acl_posix.specs.Entries.{pair_of};
ghost use Rattle.acl_posix.specs.Grammar.{pieces_of};
ghost use Rattle.acl_posix.specs.internal.Reading.{added, lists_of, no_lists, read_entries, read_lines_from, read_pieces, AgreesWith, FailsWith, ReadsOn};

use crate::entry::Entry;
use crate::names::Names;
use crate::piece::read_piece;
use crate::text_fault::{Part, TextFault};
use crate::written_line::written_line;
use acl_perm::internal::{Piece, before_mark, cut_line, is_all_blank};
use std::alloc::{AllocError, Global};

/// The entries that have been read, those of each part in order.
#[derive(Drop)]
pub(crate) struct EntryLists {
    pub access: Vec<Entry>,
    pub default: Vec<Entry>,
}

/// Returns the entries of each part of a text, or the fault of its first piece that spells no entry.
pub(crate) fn read_text(alloc: Global, text: &[u8], names: &Names) -> Result<EntryLists, TextFault>
    ensures { AgreesWith result lists_of (read_pieces names.now no_lists (pieces_of text.now)) }
{
    let mut lists = EntryLists {
        access: Vec::new(alloc),
        default: Vec::new(alloc),
    };
    let mut number = 1;
    let mut rest = Some(text);
    while let Some(left) = rest {
        rest = read_first(left, number, names, &mut lists)?;
        number += 1;
    }
    Ok(lists)
}

/// Adds the entries of the first line of a text to the lists, and returns the text after the line.
fn read_first<'a>(
    text: &'a [u8],
    number: usize,
    names: &Names,
    lists: &mut EntryLists,
) -> Result<Option<&'a [u8]>, TextFault>
    ensures { MatchResult result
        (ReadsOn names.now number text.now (lists_of lists.old) (lists_of lists.new))
        (λ fault. FailsWith fault
        (read_lines_from names.now (lists_of lists.old) number text.now)) }
{
    if let Some(line) = written_line(text) {
        push(lists, line.part, line.entry)?;
        return Ok(Some(line.rest));
    }
    let (line, rest) = cut_line(text);
    read_line(line, number, names, lists)?;
    Ok(rest)
}

/// Adds the entries of a line to the lists, up to the first piece that spells no entry, whose fault it returns.
fn read_line(
    line: &[u8],
    number: usize,
    names: &Names,
    lists: &mut EntryLists,
) -> Result<(), TextFault>
    ensures { AgreesWith result (λ _. lists_of lists.new)
        (read_entries names.now (lists_of lists.old) number line.now) }
{
    let content = before_mark(line, b'#');
    if is_all_blank(content) {
        return Ok(());
    }
    let mut rest = Some(Piece::whole(content));
    while let Some(piece) = rest {
        let (first, after) = piece.cut(b',');
        let (part, entry) = read_piece(first, number, names)?;
        push(lists, part, entry)?;
        rest = after;
    }
    Ok(())
}

fn push(lists: &mut EntryLists, part: Part, entry: Entry) -> Result<(), AllocError>
    ensures { OnOk result (lists_of lists.new ≡ added (lists_of lists.old) (part, pair_of entry)) }
{
    match part {
        Part::Access => lists.access.push(entry)?,
        Part::Default => lists.default.push(entry)?,
    }
    Ok(())
}
