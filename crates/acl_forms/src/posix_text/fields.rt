//! The fields of an entry of a POSIX ACL.
ghost use Rattle.std.specs.Prelude.{◌≡◌, IfSome, option_map};
ghost use Rattle.acl_perm.specs.Ascii.{colon};
ghost use Rattle.acl_perm.specs.Lines.{cut_at, span_of, ColumnsFit};
ghost use Rattle.acl_forms.specs.PosixText.{fields_in, posix_fields};
ghost use Rattle.acl_forms.specs.internal.PosixReading.{parts_viewed, with_last, PartsFit};

use acl_perm::internal::{Piece, trimmed};
use acl_posix::Part;
use acl_posix::internal::is_default;

/// The fields of an entry, with the blanks at their ends, and the part that it belongs to.
#[derive(Clone, Copy)]
pub(crate) struct PosixParts<'a> {
    pub part: Part,
    pub tag: Piece<'a>,
    pub qualifier: Piece<'a>,
    pub permissions: Piece<'a>,
    pub id: Option<Piece<'a>>,
}

/// Returns the fields of an entry, if there are three or four. Without a mark the entry belongs to this part.
#[tactic(auto, unfolding(crate::specs::PosixText::posix_fields))]
pub(crate) fn fields_of(entry: Piece<'_>, part: Part) -> Option<PosixParts<'_>>
    requires { ColumnsFit entry }
    ensures value { option_map parts_viewed result ≡ posix_fields part (span_of entry.entry) }
    ensures fits { IfSome result PartsFit }
{
    let (first, rest) = entry.cut(b':');
    if is_default(trimmed(first.bytes)) {
        fields_in(rest?, Part::Default)
    } else {
        fields_in(entry, part)
    }
}

fn fields_in(rest: Piece<'_>, part: Part) -> Option<PosixParts<'_>>
    requires { ColumnsFit rest }
    ensures value { option_map parts_viewed result ≡ fields_in part
        (cut_at colon (span_of rest.entry)) }
    ensures fits { IfSome result PartsFit }
{
    let (tag, Some(rest)) = rest.cut(b':') else {
        return None;
    };
    let (qualifier, Some(rest)) = rest.cut(b':') else {
        return None;
    };
    let (permissions, after) = rest.cut(b':');
    let fields = PosixParts {
        part,
        tag,
        qualifier,
        permissions,
        id: None,
    };
    match after {
        None => Some(fields),
        Some(last) => with_last(fields, last),
    }
}

// Returns the fields with the last one, unless more follow it.
fn with_last<'a>(fields: PosixParts<'a>, last: Piece<'a>) -> Option<PosixParts<'a>>
    requires fields { PartsFit fields }
    requires last { ColumnsFit last }
    ensures value { option_map parts_viewed result
        ≡ with_last (parts_viewed fields.entry) (cut_at colon (span_of last.entry)) }
    ensures fits { IfSome result PartsFit }
{
    let (id, after) = last.cut(b':');
    match after {
        Some(_) => None,
        None => Some(PosixParts {
            id: Some(id),
            ..fields
        }),
    }
}
