//! The fields of an entry.
ghost use Rattle.std.specs.Prelude.{◌≡◌, IfOk, IfSome, option_map};
ghost use Rattle.std.specs.Str.{bytes_eq};
ghost use Rattle.acl_perm.specs.Lines.{span_of, ColumnsFit};
ghost use Rattle.acl_nfs4.specs.internal.Reading.{Gives};
ghost use Rattle.acl_forms.specs.NfsText.{fields_by_tag, flags_by_tag, named_fields, nfs_fields_of, nfs_tag_of, special_fields, tag_special, trimmed_span};
ghost use Rattle.acl_forms.specs.internal.TextReading.{RestFits};
ghost use Rattle.acl_forms.specs.internal.NfsReading.{entry_viewed, parts_of_rest, parts_in, tail_of_parts, tail_viewed, tail_with_id, TailFits};

use crate::fault::{ReadFault, ReadReason};
use acl_nfs4::Flags;
use acl_nfs4::internal::{EVERYONE_NAME, GROUP_NAME, OWNER_NAME};
use acl_perm::internal::{Piece, trimmed};

/// What the first field of an entry says of its principal.
#[derive(Clone, Copy, PartialEq, Eq)]
pub(crate) enum NfsTag {
    Owner,
    OwningGroup,
    Everyone,
    NamedUser,
    NamedGroup,
}

/// The fields after the principal. A special identifier has no id.
#[derive(Clone, Copy)]
pub(crate) struct Tail<'a> {
    pub rights: Piece<'a>,
    pub flags: Piece<'a>,
    pub kind: Piece<'a>,
    pub id: Option<Piece<'a>>,
}

/// The fields of an entry. The who is the name, or at the place of the tag its special identifier.
#[derive(Clone, Copy)]
pub(crate) struct EntryParts<'a> {
    pub tag: NfsTag,
    pub who: Piece<'a>,
    pub tail: Tail<'a>,
}

impl NfsTag {
    fn of(word: &[u8]) -> Option<NfsTag>
        ensures { result ≡ nfs_tag_of word.now }
    {
        if is_word(word, b"owner@") {
            Some(NfsTag::Owner)
        } else if is_word(word, b"group@") {
            Some(NfsTag::OwningGroup)
        } else if is_word(word, b"everyone@") {
            Some(NfsTag::Everyone)
        } else if is_word(word, b"user") {
            Some(NfsTag::NamedUser)
        } else if is_word(word, b"group") {
            Some(NfsTag::NamedGroup)
        } else {
            None
        }
    }

    /// Returns the special identifier of the tag, if it has one.
    pub(crate) fn special(self) -> Option<&'static [u8]>
        ensures { option_map (λ name. name.now) result ≡ tag_special self }
    {
        match self {
            NfsTag::Owner => Some(OWNER_NAME.as_bytes()),
            NfsTag::OwningGroup => Some(GROUP_NAME.as_bytes()),
            NfsTag::Everyone => Some(EVERYONE_NAME.as_bytes()),
            NfsTag::NamedUser | NfsTag::NamedGroup => None,
        }
    }

    pub(crate) fn with_flags(self, flags: Flags) -> Flags
        ensures { result.bits ≡ flags_by_tag self flags.bits }
    {
        match self {
            NfsTag::NamedGroup => flags.union(Flags::IDENTIFIER_GROUP),
            _ => flags,
        }
    }
}

pub(crate) fn is_word(field: &[u8], word: &[u8]) -> bool
    ensures { result ≡ bytes_eq field.now word.now }
{
    field == word
}

/// Returns the fields of an entry, or why it has none: its tag, or their number.
#[inline(always)]
pub(crate) fn fields_of(entry: Piece<'_>) -> Result<EntryParts<'_>, ReadFault>
    requires { ColumnsFit entry }
    ensures exact { Gives entry_viewed result (nfs_fields_of (span_of entry.entry)) }
    ensures fits { IfOk result (λ parts. TailFits parts.tail) }
{
    let (first, rest) = entry.cut(b':');
    let word = without_blanks(first);
    let Some(tag) = NfsTag::of(word.bytes) else {
        return Err(ReadFault::new(word.column, ReadReason::Tag));
    };
    match fields_after(tag, word.column, rest) {
        Some(fields) => Ok(fields),
        None => Err(ReadFault::new(entry.column, ReadReason::Fields)),
    }
}

// Returns the fields of an entry with a tag at this place, if there are as many as the tag must have.
fn fields_after(tag: NfsTag, place: usize, rest: Option<Piece<'_>>) -> Option<EntryParts<'_>>
    requires { RestFits rest }
    ensures value { option_map entry_viewed result
        ≡ fields_by_tag tag place (parts_of_rest rest.entry) (tag_special tag) }
    ensures fits { IfSome result (λ parts. TailFits parts.tail) }
{
    match tag.special() {
        Some(bytes) => special_fields(
            tag,
            Piece {
                column: place,
                bytes,
            },
            rest?,
        ),
        None => named_fields(tag, rest?),
    }
}

fn special_fields<'a>(tag: NfsTag, who: Piece<'a>, rest: Piece<'a>) -> Option<EntryParts<'a>>
    requires { ColumnsFit rest }
    ensures value { option_map entry_viewed result
        ≡ special_fields tag (span_of who.entry) (parts_in (span_of rest.entry)) }
    ensures fits { IfSome result (λ parts. TailFits parts.tail) }
{
    let tail = tail_of(rest)?;
    match tail.id {
        None => Some(EntryParts { tag, who, tail }),
        Some(_) => None,
    }
}

fn named_fields(tag: NfsTag, rest: Piece<'_>) -> Option<EntryParts<'_>>
    requires { ColumnsFit rest }
    ensures value { option_map entry_viewed result ≡ named_fields tag
        (parts_in (span_of rest.entry)) }
    ensures fits { IfSome result (λ parts. TailFits parts.tail) }
{
    let (name, after) = rest.cut(b':');
    let tail = tail_of(after?)?;
    Some(EntryParts {
        tag,
        who: without_blanks(name),
        tail,
    })
}

// Returns the fields after the principal, if there are three, or four with an id.
fn tail_of(rest: Piece<'_>) -> Option<Tail<'_>>
    requires { ColumnsFit rest }
    ensures value { option_map tail_viewed result ≡ tail_of_parts (parts_in (span_of rest.entry)) }
    ensures fits { IfSome result TailFits }
{
    let (rights, Some(rest)) = rest.cut(b':') else {
        return None;
    };
    let (flags, Some(rest)) = rest.cut(b':') else {
        return None;
    };
    let (kind, after) = rest.cut(b':');
    let tail = Tail {
        rights: without_blanks(rights),
        flags: without_blanks(flags),
        kind: without_blanks(kind),
        id: None,
    };
    match after {
        None => Some(tail),
        Some(last) => with_id(tail, last),
    }
}

// Returns the fields with the last one, unless more follow it.
fn with_id<'a>(tail: Tail<'a>, last: Piece<'a>) -> Option<Tail<'a>>
    requires tail { TailFits tail }
    requires last { ColumnsFit last }
    ensures value { option_map tail_viewed result
        ≡ tail_with_id (tail_viewed tail.entry) (parts_in (span_of last.entry)) }
    ensures fits { IfSome result TailFits }
{
    let (id, after) = last.cut(b':');
    match after {
        Some(_) => None,
        None => Some(Tail {
            rights: tail.rights,
            flags: tail.flags,
            kind: tail.kind,
            id: Some(without_blanks(id)),
        }),
    }
}

fn without_blanks(part: Piece<'_>) -> Piece<'_>
    requires { ColumnsFit part }
    ensures value { span_of result ≡ trimmed_span (span_of part.entry) }
    ensures fits { ColumnsFit result }
{
    Piece {
        column: part.start(),
        bytes: trimmed(part.bytes),
    }
}
