//! The entry that a piece of a text spells, or what is wrong with it.
ghost use Rattle.std.specs.Prelude.{◌≡◌, ℕ, None, Some, option_map};
ghost use Rattle.acl_perm.specs.Lines.{span_of, ColumnsFit};
ghost use Rattle.acl_nfs4.specs.internal.Reading.{Gives};
ghost use Rattle.acl_posix.specs.Entries.{pair_of};
ghost use Rattle.acl_posix.specs.Names.{Table};
ghost use Rattle.acl_posix.specs.Tag.{tag_of};
ghost use Rattle.acl_posix.specs.internal.Reading.{tag_alone, tag_with};
ghost use Rattle.acl_forms.specs.PosixText.{pair_by_id, field_refused, has_qualifier, last_id, named_word, pair_read, permissions_in, permissions_read, posix_entry, qualifier_reason, tag_read, word_read};
ghost use Rattle.acl_forms.specs.internal.PosixReading.{parts_viewed, placed, PartsFit};

use crate::fault::{ReadFault, ReadReason};
use crate::nfs_text::id::{id_alone, is_other_number};
use crate::posix_text::fields::{PosixParts, fields_of};
use acl_perm::Perm;
use acl_perm::internal::{Piece, is_all_blank, trimmed};
use acl_posix::internal::{TagWord, is_number, read_id, read_permissions, read_word};
use acl_posix::{Entry, Id, Names, Part, Tag};

/// An entry of a text: the part that it belongs to, its first byte, and its tag and permissions.
#[derive(Clone, Copy)]
pub(crate) struct TextEntry {
    pub part: Part,
    pub at: usize,
    pub entry: Entry,
}

/// Returns the entry that a piece spells. Without a mark it belongs to this part.
#[tactic(auto, unfolding(crate::specs::PosixText::posix_entry))]
pub(crate) fn read_entry(
    piece: Piece<'_>,
    part: Part,
    names: &Names,
) -> Result<TextEntry, ReadFault>
    requires { ColumnsFit piece }
    ensures { Gives placed result (posix_entry part names.now (span_of piece.entry)) }
{
    let at = piece.column;
    if is_all_blank(piece.bytes) {
        return Err(ReadFault::new(at, ReadReason::EmptyEntry));
    }
    let Some(fields) = fields_of(piece, part) else {
        return Err(ReadFault::new(at, ReadReason::Fields));
    };
    let entry = pair_at(at, fields, names)?;
    Ok(TextEntry {
        part: fields.part,
        at,
        entry,
    })
}

// Returns the tag and the permissions of the fields of an entry that begins at a place.
#[tactic(auto, unfolding(crate::specs::PosixText::pair_read))]
fn pair_at(start: usize, fields: PosixParts<'_>, names: &Names) -> Result<Entry, ReadFault>
    requires { PartsFit fields }
    ensures { Gives pair_of result (pair_read start names.now (parts_viewed fields.entry)) }
{
    let word = word_at(fields.tag)?;
    match fields.id {
        None => named_pair(word, fields, names),
        Some(field) => numbered_pair(start, word, fields, field),
    }
}

// Returns the tag and the permissions of an entry of three fields.
fn named_pair(word: TagWord, fields: PosixParts<'_>, names: &Names) -> Result<Entry, ReadFault>
    requires { PartsFit fields }
    ensures { (start : ℕ)
        → Gives pair_of result (pair_by_id start names.now word (parts_viewed fields.entry) None) }
{
    let tag = tag_at(fields.qualifier, word, names)?;
    let perm = permissions_at(fields.permissions)?;
    Ok(Entry { tag, perm })
}

// Returns the tag and the permissions of an entry that begins at a place and has an id in a fourth field.
fn numbered_pair(
    start: usize,
    word: TagWord,
    fields: PosixParts<'_>,
    field: Piece<'_>,
) -> Result<Entry, ReadFault>
    requires fields { PartsFit fields }
    requires field { ColumnsFit field }
    ensures { (names : Table) → Gives pair_of result
        (pair_by_id start names word (parts_viewed fields.entry) (Some (span_of field.entry))) }
{
    let word = named_word(start, word, fields.qualifier)?;
    let perm = permissions_at(fields.permissions)?;
    let id = last_id(fields.qualifier, field)?;
    let tag = tag_with(word, id);
    Ok(Entry { tag, perm })
}

fn word_at(field: Piece<'_>) -> Result<TagWord, ReadFault>
    requires { ColumnsFit field }
    ensures { result ≡ word_read (span_of field.entry) }
{
    match read_word(trimmed(field.bytes)) {
        Some(word) => Ok(word),
        None => Err(refused(field, ReadReason::Tag)),
    }
}

fn permissions_at(field: Piece<'_>) -> Result<Perm, ReadFault>
    requires { ColumnsFit field }
    ensures { Gives (λ perm. perm.bits) result (permissions_read (span_of field.entry)) }
{
    match permissions_in(trimmed(field.bytes)) {
        Some(perm) => Ok(perm),
        None => Err(refused(field, ReadReason::Permission)),
    }
}

fn permissions_in(bytes: &[u8]) -> Option<Perm>
    ensures { option_map (λ perm. perm.bits) result ≡ permissions_in bytes.now }
{
    if bytes.is_empty() {
        return None;
    }
    read_permissions(bytes)
}

#[tactic(auto, unfolding(crate::specs::PosixText::tag_read))]
fn tag_at(field: Piece<'_>, word: TagWord, names: &Names) -> Result<Tag, ReadFault>
    requires { ColumnsFit field }
    ensures { Gives tag_of result (tag_read names.now word (span_of field.entry)) }
{
    let qualifier = trimmed(field.bytes);
    if qualifier.is_empty() {
        return Ok(tag_alone(word));
    }
    let id = match word {
        TagWord::Mask | TagWord::Other => return Err(refused(field, ReadReason::Qualifier)),
        _ if is_number(qualifier) => read_id(qualifier),
        TagWord::User => names.user(qualifier),
        TagWord::Group => names.group(qualifier),
    };
    match id {
        Some(id) => Ok(tag_with(word, id)),
        None => Err(refused(field, qualifier_reason(qualifier))),
    }
}

fn qualifier_reason(bytes: &[u8]) -> ReadReason
    ensures { result ≡ qualifier_reason bytes.now }
{
    if is_number(bytes) {
        ReadReason::Id
    } else {
        ReadReason::UnknownName
    }
}

// Returns the word of an entry that begins at a place and ends with an id, if its qualifier names a user or a group.
#[tactic(auto, unfolding(crate::specs::PosixText::named_word))]
fn named_word(start: usize, word: TagWord, field: Piece<'_>) -> Result<TagWord, ReadFault>
    requires { ColumnsFit field }
    ensures { result ≡ named_word start word (span_of field.entry) }
{
    if trimmed(field.bytes).is_empty() {
        return Err(ReadFault::new(start, ReadReason::Fields));
    }
    if has_qualifier(word) {
        Ok(word)
    } else {
        Err(refused(field, ReadReason::Qualifier))
    }
}

// Returns the id of a fourth field, which must be that of a qualifier in digits.
#[tactic(auto, unfolding(crate::specs::PosixText::last_id))]
fn last_id(qualifier: Piece<'_>, field: Piece<'_>) -> Result<Id, ReadFault>
    requires { ColumnsFit field }
    ensures { Gives (λ id. id.value) result
        (last_id (span_of qualifier.entry) (span_of field.entry)) }
{
    let Some(id) = id_alone(trimmed(field.bytes)) else {
        return Err(refused(field, ReadReason::Id));
    };
    if is_other_number(trimmed(qualifier.bytes), id) {
        return Err(refused(field, ReadReason::IdDiffers));
    }
    Ok(id)
}

fn has_qualifier(word: TagWord) -> bool
    ensures { result ≡ has_qualifier word }
{
    matches!(word, TagWord::User | TagWord::Group)
}

fn tag_alone(word: TagWord) -> Tag
    ensures { tag_of result ≡ tag_alone word }
{
    match word {
        TagWord::User => Tag::UserObj,
        TagWord::Group => Tag::GroupObj,
        TagWord::Mask => Tag::Mask,
        TagWord::Other => Tag::Other,
    }
}

fn tag_with(word: TagWord, id: Id) -> Tag
    ensures { tag_of result ≡ tag_with word id.value }
{
    match word {
        TagWord::User => Tag::User(id),
        TagWord::Group => Tag::Group(id),
        TagWord::Mask => Tag::Mask,
        TagWord::Other => Tag::Other,
    }
}

// Returns a fault of a field, at its first byte that is not a blank.
fn refused(field: Piece<'_>, reason: ReadReason) -> ReadFault
    requires { ColumnsFit field }
    ensures { result ≡ field_refused (span_of field.entry) reason }
{
    ReadFault::new(field.start(), reason)
}
