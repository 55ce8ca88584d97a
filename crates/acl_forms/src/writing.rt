//! Writes texts of entries, entry by entry without memory.
ghost use Rattle.std.specs.Prelude.{◌≡◌, ◌+◌, ◌*◌, ◌<◌, ◌≤◌, ◌++◌, ◌==◌, [], bit_and, filter, length, map, OnErr, OnOk};
ghost use Rattle.std.specs.List.{flat_map};
ghost use Rattle.arrayvec.specs.ArrayVec.{array_vec_len};
ghost use Rattle.acl_perm.specs.Devices.{one_more};
ghost use Rattle.acl_perm.specs.Pieces.{WritesFrom};
ghost use Rattle.acl_nfs4.specs.Ace.{ace};
ghost use Rattle.acl_nfs4.specs.Limits.{longest_who, most_aces};
ghost use Rattle.acl_forms.specs.NfsWritten.{letter_or_hyphen, styled_letters};
ghost use Rattle.acl_forms.specs.ToolsWritten.{letters_of, meets};
ghost use Rattle.acl_forms.specs.internal.TextWriting.{entries_left, entry_of, separator_of, text_line_room};

use crate::letters::Letter;
use crate::style::{EntrySeparator, LetterStyle, Style};
use crate::{nfs_text, tools};
use acl_nfs4::{AceRef, Aces, Flags, Mask};
use acl_perm::internal::put_next;
use acl_perm::{Sink, WriteFault};
use arrayvec::ArrayVec;

/// Room for an entry: the longest words, all letters, the longest who, an id, and the bytes between them and at its
/// ends.
pub(crate) type EntryLine = ArrayVec<u8, LINE_ROOM>;

pub(crate) const LINE_ROOM: usize = 1080;

/// libarchive reads an id that is greater as this one.
pub(crate) const GREATEST_KEPT_ID: u32 = 2_147_483_647;

/// The two rights of retention, for which no text of entries has a letter.
pub(crate) const RETENTION: Mask = Mask {
    bits: Mask::WRITE_RETENTION.bits | Mask::WRITE_RETENTION_HOLD.bits,
};

/// A form of text that is written entry by entry.
#[derive(Clone, Copy)]
pub(crate) enum AceTextForm {
    /// The text of nfs4-acl-tools.
    Tools,
    /// The text of FreeBSD, ZFS and libarchive.
    Nfs(Style),
}

impl AceTextForm {
    // Returns what separates the entries.
    fn separator(self) -> EntrySeparator
        ensures { result ≡ separator_of self }
    {
        match self {
            AceTextForm::Tools => EntrySeparator::LineFeeds,
            AceTextForm::Nfs(style) => style.separator,
        }
    }

    fn add_entry(self, line: &mut EntryLine, item: AceRef<'_>)
        requires room { array_vec_len line.old ≤ 1 }
        requires short { length item.who.now ≤ longest_who }
        ensures text { line.new.items ≡ line.old.items ++ entry_of self (ace item.entry) }
        ensures len { array_vec_len line.new < text_line_room }
    {
        match self {
            AceTextForm::Tools => tools::writer::add_entry(line, item),
            AceTextForm::Nfs(style) => nfs_text::writer::add_entry(line, item, style.letters),
        }
    }
}

/// Writes the entries of the ACEs, and returns how many bytes are out then.
pub(crate) fn put_entries<S: Sink>(
    sink: &mut S,
    aces: Aces<'_>,
    form: AceTextForm,
) -> Result<u64, WriteFault>
    requires { length aces ≤ most_aces }
    ensures written { WritesFrom (S.contents sink.old) (S.contents sink.new) 0
        (entries_left form [] aces.entry) result }
    ensures none_failed { OnOk result (S.failure_count sink.new ≡ S.failure_count sink.old) }
    ensures failed { OnErr result (S.failure_count sink.new ≡ one_more (S.failure_count sink.old)) }
{
    let separator = form.separator();
    let mut line = ArrayVec::new();
    let mut done = 0;
    let mut before: &[u8] = b"";
    for ace in aces {
        line.clear();
        add(&mut line, before);
        form.add_entry(&mut line, ace);
        add(&mut line, separator.after_each());
        done = put_next(sink, done, &line)?;
        before = separator.between();
    }
    Ok(done)
}

pub(crate) fn add(line: &mut EntryLine, bytes: &[u8])
    requires { array_vec_len line.old + length bytes.now ≤ text_line_room }
    ensures items { line.new.items ≡ line.old.items ++ bytes.now }
    ensures len { array_vec_len line.new ≡ array_vec_len line.old + length bytes.now }
{
    // The line has room for the bytes, so none are refused.
    let _ = line.try_extend_from_slice(bytes);
}

/// Adds the letters of the rows whose bits a set has, in a style. The set is a number, since the table may be that of
/// the flags or that of the rights.
pub(crate) fn add_styled(line: &mut EntryLine, table: &[Letter], set: u32, letters: LetterStyle)
    requires room { array_vec_len line.old + length table.now ≤ text_line_room }
    ensures text { line.new.items ≡ line.old.items ++ styled_letters letters table.now set }
    ensures len { array_vec_len line.new ≤ array_vec_len line.old + length table.now }
{
    match letters {
        LetterStyle::Compact => add_letters(line, table, set),
        LetterStyle::Full => add_columns(line, table, set),
    }
}

/// Adds the letters of the rows whose bits a set has.
pub(crate) fn add_letters(line: &mut EntryLine, table: &[Letter], set: u32)
    requires room { array_vec_len line.old + length table.now ≤ text_line_room }
    ensures text { line.new.items ≡ line.old.items ++ letters_of table.now set }
    ensures len { array_vec_len line.new ≤ array_vec_len line.old + length table.now }
{
    for row in table {
        if set & row.bits == row.bits {
            line.push(row.letter);
        }
    }
}

// Adds a letter for each row, or a hyphen if the set does not have its bits.
fn add_columns(line: &mut EntryLine, table: &[Letter], set: u32)
    requires room { array_vec_len line.old + length table.now ≤ text_line_room }
    ensures text { line.new.items ≡ line.old.items ++ map (letter_or_hyphen set) table.now }
    ensures len { array_vec_len line.new ≡ array_vec_len line.old + length table.now }
{
    for row in table {
        let letter = if set & row.bits == row.bits {
            row.letter
        } else {
            b'-'
        };
        line.push(letter);
    }
}

/// Returns whether two sets have a flag in common.
pub(crate) fn shares_flag(flags: Flags, others: Flags) -> bool
    ensures { result ≡ meets flags.bits others.bits }
{
    flags.bits & others.bits != 0
}

/// Returns whether two sets have a right in common.
pub(crate) fn shares_right(mask: Mask, others: Mask) -> bool
    ensures { result ≡ meets mask.bits others.bits }
{
    mask.bits & others.bits != 0
}
