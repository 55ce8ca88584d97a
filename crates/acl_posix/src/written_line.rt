//! Lines in the form of the canonical text, which are read in one step. `reader` reads every other line field by field.
ghost use Rattle.std.specs.Prelude.{◌≡◌, [], ◌∷◌, ◌++◌, IfSome};
ghost use Rattle.acl_posix.specs.Entries.{pair_of};
ghost use Rattle.acl_perm.specs.Ascii.{letter_r, letter_w, letter_x};
ghost use Rattle.acl_perm.specs.Shown.{perm_text};
ghost use Rattle.acl_posix.specs.internal.WrittenLine.{letter_of, AreFieldsBefore, IsEntryBefore, IsFirstLine, IsIdBefore, IsPermBefore};

use crate::digits::{FirstDigits, first_digits};
use crate::entry::Entry;
use crate::id::Id;
use crate::tag::Tag;
use crate::text_fault::Part;
use acl_perm::Perm;

/// The entry of a line, its part, and the text after the line.
#[derive(Clone, Copy)]
pub(crate) struct WrittenLine<'a> {
    pub part: Part,
    pub entry: Entry,
    pub rest: &'a [u8],
}

/// An entry, and the text after its line.
#[derive(Clone, Copy)]
struct EntryBefore<'a> {
    entry: Entry,
    rest: &'a [u8],
}

/// An id and permissions, and the text after their line.
#[derive(Clone, Copy)]
struct FieldsBefore<'a> {
    id: Id,
    perm: Perm,
    rest: &'a [u8],
}

/// An id, and the bytes after its colon.
#[derive(Clone, Copy)]
struct IdBefore<'a> {
    id: Id,
    rest: &'a [u8],
}

/// Permissions, and the text after their line feed.
#[derive(Clone, Copy)]
struct PermBefore<'a> {
    perm: Perm,
    rest: &'a [u8],
}

/// Returns what the first line of a text spells, if it is the line of a USER or GROUP entry in the form of the
/// canonical text. There may be zeros before the id, which then has at most ten digits.
pub(crate) fn written_line(text: &[u8]) -> Option<WrittenLine<'_>>
    ensures { IfSome result (λ line.
        IsFirstLine text.now line.part (pair_of line.entry) line.rest.now) }
{
    if let Some(EntryBefore { entry, rest }) = entry_before(text) {
        let part = Part::Access;
        return Some(WrittenLine { part, entry, rest });
    }
    let bytes = behind(text, b"default:")?;
    let EntryBefore { entry, rest } = entry_before(bytes)?;
    let part = Part::Default;
    Some(WrittenLine { part, entry, rest })
}

#[inline(always)]
fn entry_before(bytes: &[u8]) -> Option<EntryBefore<'_>>
    ensures { IfSome result (λ line.
        IsEntryBefore bytes.now (pair_of line.entry) line.rest.now) }
{
    if let Some(fields) = behind(bytes, b"user:") {
        let FieldsBefore { id, perm, rest } = fields_before(fields)?;
        let tag = Tag::User(id);
        let entry = Entry { tag, perm };
        return Some(EntryBefore { entry, rest });
    }
    let fields = behind(bytes, b"group:")?;
    let FieldsBefore { id, perm, rest } = fields_before(fields)?;
    let tag = Tag::Group(id);
    let entry = Entry { tag, perm };
    Some(EntryBefore { entry, rest })
}

/// Returns the bytes after a beginning, or `None` if the bytes do not begin with it.
fn behind<'a>(bytes: &'a [u8], beginning: &[u8]) -> Option<&'a [u8]>
    ensures { IfSome result (λ rest. bytes.now ≡ beginning.now ++ rest.now) }
{
    bytes.strip_prefix(beginning)
}

#[inline(always)]
fn fields_before(bytes: &[u8]) -> Option<FieldsBefore<'_>>
    ensures { IfSome result (λ fields.
        AreFieldsBefore bytes.now fields.id.value fields.perm.bits fields.rest.now) }
{
    let IdBefore { id, rest } = id_before(bytes)?;
    let PermBefore { perm, rest } = perm_before(rest)?;
    Some(FieldsBefore { id, perm, rest })
}

/// Returns the id before the first colon, if at most ten digits are before it.
fn id_before(bytes: &[u8]) -> Option<IdBefore<'_>>
    ensures { IfSome result (λ found. IsIdBefore bytes.now found.id.value found.rest.now) }
{
    let FirstDigits { value, count } = first_digits(bytes);
    if count == 0 || count == bytes.len() || bytes[count] != b':' {
        return None;
    }
    let id = Id::from_number(value)?;
    let rest = &bytes[count + 1..];
    Some(IdBefore { id, rest })
}

fn perm_before(bytes: &[u8]) -> Option<PermBefore<'_>>
    ensures { IfSome result (λ found. IsPermBefore bytes.now found.perm.bits found.rest.now) }
{
    let [read, write, execute, feed, rest @ ..] = bytes else {
        return None;
    };
    if *feed != b'\n' {
        return None;
    }
    let read = is_shown(*read, b'r')?;
    let write = is_shown(*write, b'w')?;
    let execute = is_shown(*execute, b'x')?;
    let perm = perm_of(read, write, execute);
    Some(PermBefore { perm, rest })
}

fn perm_of(read: bool, write: bool, execute: bool) -> Perm
    ensures { perm_text result.bits
        ≡ letter_of read letter_r ∷ letter_of write letter_w ∷ letter_of execute letter_x ∷ [] }
{
    let read = if read { 4 } else { 0 };
    let write = if write { 2 } else { 0 };
    let execute = if execute { 1 } else { 0 };
    Perm {
        bits: read + write + execute,
    }
}

/// Returns `true` for the letter, `false` for `-`, and `None` for every other byte.
fn is_shown(byte: u8, letter: u8) -> Option<bool>
    ensures { IfSome result (λ is. byte ≡ letter_of is letter) }
{
    if byte == letter {
        Some(true)
    } else if byte == b'-' {
        Some(false)
    } else {
        None
    }
}
