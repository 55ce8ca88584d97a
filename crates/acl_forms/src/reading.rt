//! Reads texts of entries, line by line and entry by entry.
ghost use Rattle.std.specs.Prelude.{◌≡◌, ◌==◌, [], ◌≤◌, List, MatchResult, length, position};
ghost use Rattle.acl_perm.specs.Ascii.{comment_mark};
ghost use Rattle.acl_perm.specs.Lines.{span_of, ColumnsFit};
ghost use Rattle.acl_forms.specs.internal.TextReading.{text_read, read_items, AddsItems, IsHeld, FailsAsRead, IsEntryCut, JudgesComment, part_items};
ghost use Rattle.acl_forms.specs.Texts.{comment_fault, cut_entries, entries_among, entries_of, items_in, items_of, line_items};

use crate::fault::{ReadFault, ReadReason};
use crate::text_form::TextForm;
use acl_perm::internal::{Piece, place_of};
use std::alloc::Global;

/// Returns the list of what the entries of a text spell.
#[tactic(auto, unfolding(crate::specs::internal::TextReading::text_read))]
pub(crate) fn read_text<F: TextForm>(
    alloc: Global,
    text: &[u8],
    form: F,
) -> Result<F::List, ReadFault>
    ensures { MatchResult result (λ list. IsHeld (text_read (F.rules form) text.now) (F.Holds list))
        (λ fault. FailsAsRead fault (text_read (F.rules form) text.now)) }
{
    if let Some(place) = place_of(text, 0) {
        return Err(ReadFault::new(place, ReadReason::Nul));
    }
    let list = read_lines(alloc, text, form)?;
    if form.len_of(&list) < form.least() {
        return Err(ReadFault::new(text.len(), ReadReason::Empty));
    }
    Ok(list)
}

fn read_lines<F: TextForm>(alloc: Global, text: &[u8], form: F) -> Result<F::List, ReadFault>
    ensures { MatchResult result
        (λ list. IsHeld (read_items (F.rules form) [] (items_in (F.rules form) text.now))
        (F.Holds list))
        (λ fault. FailsAsRead fault
        (read_items (F.rules form) [] (items_in (F.rules form) text.now))) }
{
    let mut list = form.new_list(alloc);
    let mut rest = Some(Piece {
        // Here a column counts the bytes of the text before it.
        column: 0,
        bytes: text,
    });
    while let Some(left) = rest {
        let (line, after) = left.cut(b'\n');
        read_line(&mut list, line, form)?;
        rest = after;
    }
    Ok(list)
}

#[tactic(auto, unfolding(crate::specs::Texts::line_items))]
fn read_line<F: TextForm>(list: &mut F::List, line: Piece<'_>, form: F) -> Result<(), ReadFault>
    requires fits { ColumnsFit line }
    requires held { (all : List F.Item) × F.Holds list.old all }
    ensures { (all : List F.Item) → F.Holds list.old all
        → AddsItems (F.rules form) (line_items (F.rules form) (span_of line.entry)) all
        (F.Holds list.new) result }
{
    let Some(place) = mark_in(line.bytes) else {
        return read_entries(list, line, form);
    };
    judge_comment(line, place, form)?;
    let before = Piece {
        column: line.column,
        bytes: &line.bytes[..place],
    };
    read_entries(list, before, form)
}

fn mark_in(line: &[u8]) -> Option<usize>
    ensures { result ≡ position (λ b. b == comment_mark) line.now }
{
    place_of(line, b'#')
}

#[tactic(auto, unfolding(crate::specs::Texts::comment_fault))]
fn judge_comment<F: TextForm>(line: Piece<'_>, place: usize, form: F) -> Result<(), ReadFault>
    requires fits { ColumnsFit line }
    requires inside { place ≤ length line.bytes.now }
    ensures { JudgesComment result (comment_fault (F.rules form) (span_of line.entry) place) }
{
    if form.is_cut_short(line.bytes.len()) {
        return Err(ReadFault::new(line.column + place, ReadReason::TooLong));
    }
    match first_end(&line.bytes[place..], form) {
        Some(end) => Err(ReadFault::new(line.column + place + end, ReadReason::Comment)),
        None => Ok(()),
    }
}

// Adds the entries of a line without its comment.
fn read_entries<F: TextForm>(list: &mut F::List, line: Piece<'_>, form: F) -> Result<(), ReadFault>
    requires fits { ColumnsFit line }
    requires held { (all : List F.Item) × F.Holds list.old all }
    ensures { (all : List F.Item) → F.Holds list.old all
        → AddsItems (F.rules form) (items_of (entries_of (F.rules form) (span_of line.entry))) all
        (F.Holds list.new) result }
{
    if form.is_line_skipped(line.bytes) {
        return Ok(());
    }
    read_parts(list, line, form)
}

fn read_parts<F: TextForm>(list: &mut F::List, line: Piece<'_>, form: F) -> Result<(), ReadFault>
    requires fits { ColumnsFit line }
    requires held { (all : List F.Item) × F.Holds list.old all }
    ensures { (all : List F.Item) → F.Holds list.old all → AddsItems (F.rules form)
        (items_of
        (entries_among (F.rules form) (cut_entries (F.rules form) (span_of line.entry)))) all
        (F.Holds list.new) result }
{
    let mut rest = Some(line);
    while let Some(left) = rest {
        let (part, after) = cut_entry(left, form);
        add_part(list, part, form)?;
        rest = after;
    }
    Ok(())
}

// Returns the part before the first byte that ends an entry, and the part after it if there is one.
fn cut_entry<F: TextForm>(line: Piece<'_>, form: F) -> (Piece<'_>, Option<Piece<'_>>)
    requires { ColumnsFit line }
    ensures parts { IsEntryCut (F.rules form) (span_of line.entry) result }
{
    match first_end(line.bytes, form) {
        None => (line, None),
        Some(place) => {
            let first = Piece {
                column: line.column,
                bytes: &line.bytes[..place],
            };
            let rest = Piece {
                column: line.column + place + 1,
                bytes: &line.bytes[place + 1..],
            };
            (first, Some(rest))
        }
    }
}

fn first_end<F: TextForm>(bytes: &[u8], form: F) -> Option<usize>
    ensures { result ≡ position (F.rules form).ends_entry bytes.now }
{
    bytes.iter().position(|b| form.ends_entry(*b))
}

// Adds the entry of a part of a line, unless the part is no entry.
fn add_part<F: TextForm>(list: &mut F::List, part: Piece<'_>, form: F) -> Result<(), ReadFault>
    requires fits { ColumnsFit part }
    requires held { (all : List F.Item) × F.Holds list.old all }
    ensures { (all : List F.Item) → F.Holds list.old all
        → AddsItems (F.rules form) (part_items (F.rules form) (span_of part.entry)) all
        (F.Holds list.new) result }
{
    if form.is_part_skipped(part.bytes) {
        return Ok(());
    }
    form.add_entry(list, part)
}
