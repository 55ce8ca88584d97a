//! The entry that a piece of a text spells.
ghost use Rattle.std.specs.Prelude.{◌≡◌, option_map, IfSome};
ghost use Rattle.acl_perm.specs.Lines.{cut_at, span_of, ColumnsFit};
ghost use Rattle.acl_posix.specs.Grammar.{colon, fields_of, three_of};
ghost use Rattle.acl_posix.specs.internal.Reading.{mapped, read_piece, read_tag, view_entry, view_fields, FieldsFit};
ghost use Rattle.acl_posix.specs.Tag.{tag_of};

use crate::entry::Entry;
use crate::field::{TagWord, is_default, is_number, read_id, read_permissions, read_word};
use crate::id::Id;
use crate::names::Names;
use crate::tag::Tag;
use crate::text_fault::{Part, TextFault};
use acl_perm::internal::{Piece, is_all_blank, trimmed};

/// The fields of an entry, and the part that it belongs to.
#[derive(Clone, Copy)]
pub(crate) struct EntryPieces<'a> {
    pub part: Part,
    pub tag: Piece<'a>,
    pub qualifier: Piece<'a>,
    pub permissions: Piece<'a>,
}

/// Returns the entry that a piece spells, and its part. Blanks alone are judged first, then the number of fields, then
/// each field in order.
#[tactic(auto, unfolding(crate::specs::internal::Reading::read_piece, crate::specs::internal::Reading::read_word, crate::specs::internal::Reading::read_permissions))]
pub(crate) fn read_piece(
    piece: Piece,
    line: usize,
    names: &Names,
) -> Result<(Part, Entry), TextFault>
    requires { ColumnsFit piece }
    ensures { mapped view_entry result ≡ read_piece names.now line (span_of piece.entry) }
{
    let column = piece.start();
    if is_all_blank(piece.bytes) {
        return Err(TextFault::EmptyEntry { line, column });
    }
    let Some(fields) = fields(piece) else {
        return Err(TextFault::Fields { line, column });
    };
    let column = fields.tag.start();
    let word = read_word(trimmed(fields.tag.bytes)).ok_or(TextFault::Tag { line, column })?;
    let tag = tag_at(fields.qualifier, line, word, names)?;
    let column = fields.permissions.start();
    let perm = read_permissions(trimmed(fields.permissions.bytes)).ok_or(TextFault::Permission {
        line,
        column,
    })?;
    Ok((fields.part, Entry { tag, perm }))
}

/// Returns the part that a piece belongs to, and its three fields.
#[tactic(auto, unfolding(crate::specs::Grammar::fields_of))]
fn fields<'a>(piece: Piece<'a>) -> Option<EntryPieces<'a>>
    requires { ColumnsFit piece }
    ensures value { option_map view_fields result ≡ fields_of (cut_at colon (span_of piece.entry)) }
    ensures fits { IfSome result (λ fields. FieldsFit fields piece.entry) }
{
    let (first, rest) = piece.cut(b':');
    if is_default(trimmed(first.bytes)) {
        three(Part::Default, rest?)
    } else {
        three(Part::Access, piece)
    }
}

/// Returns the three fields that a piece has from here on, if it has no more and no fewer.
fn three<'a>(part: Part, piece: Piece<'a>) -> Option<EntryPieces<'a>>
    requires { ColumnsFit piece }
    ensures value { option_map view_fields result
        ≡ three_of part (cut_at colon (span_of piece.entry)) }
    ensures fits { IfSome result (λ fields. FieldsFit fields piece.entry) }
{
    let (tag, rest) = piece.cut(b':');
    let (qualifier, rest) = rest?.cut(b':');
    let (permissions, rest) = rest?.cut(b':');
    match rest {
        None => Some(EntryPieces {
            part,
            tag,
            qualifier,
            permissions,
        }),
        Some(_) => None,
    }
}

#[tactic(auto, unfolding(crate::specs::internal::Reading::read_tag))]
fn tag_at(field: Piece, line: usize, word: TagWord, names: &Names) -> Result<Tag, TextFault>
    requires { ColumnsFit field }
    ensures { mapped tag_of result ≡ read_tag names.now line (span_of field.entry) word }
{
    let qualifier = trimmed(field.bytes);
    let column = field.start();
    let no_id = TextFault::Id { line, column };
    let unknown = TextFault::UnknownName { line, column };
    match word {
        TagWord::Mask | TagWord::Other if !qualifier.is_empty() => {
            Err(TextFault::Qualifier { line, column })
        }
        TagWord::Mask => Ok(Tag::Mask),
        TagWord::Other => Ok(Tag::Other),
        TagWord::User if qualifier.is_empty() => Ok(Tag::UserObj),
        TagWord::Group if qualifier.is_empty() => Ok(Tag::GroupObj),
        TagWord::User if is_number(qualifier) => read_id(qualifier).map(Tag::User).ok_or(no_id),
        TagWord::Group if is_number(qualifier) => read_id(qualifier).map(Tag::Group).ok_or(no_id),
        TagWord::User => names.user(qualifier).map(Tag::User).ok_or(unknown),
        TagWord::Group => names.group(qualifier).map(Tag::Group).ok_or(unknown),
    }
}
