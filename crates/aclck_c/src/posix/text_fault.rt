//! What is wrong with the text of POSIX ACLs, by numbers.
ghost use Rattle.std.specs.Prelude.{◌≡◌};
ghost use Rattle.aclck_c.specs.Posix.{invalid_refusal, part_number, posix_refusal, tag_number};
ghost use Rattle.aclck_c.specs.internal.Failures.{of_posix_text};

use crate::failure::Failure;
use crate::reason::Reason;
use crate::refusal::Refusal;
use acl_posix::{Cause, Part, Tag, TextFault};

impl From<TextFault> for Failure {
    ghost from_gives = { λ fault failure. failure ≡ of_posix_text fault };

    fn from(fault: TextFault) -> Failure {
        Failure::of_refusal(posix_refusal(fault))
    }
}

// Returns the fault of a text by its numbers for C, or `None` if memory ran out.
fn posix_refusal(fault: TextFault) -> Option<Refusal>
    ensures { result ≡ posix_refusal fault }
{
    let (reason, line, column) = match fault {
        TextFault::Fields { line, column } => (Reason::Fields, line, column),
        TextFault::Tag { line, column } => (Reason::Tag, line, column),
        TextFault::Qualifier { line, column } => (Reason::Qualifier, line, column),
        TextFault::Id { line, column } => (Reason::Id, line, column),
        TextFault::UnknownName { line, column } => (Reason::UnknownName, line, column),
        TextFault::Permission { line, column } => (Reason::Permission, line, column),
        TextFault::EmptyEntry { line, column } => (Reason::EmptyEntry, line, column),
        TextFault::Invalid(part, cause) => return Some(invalid_refusal(part, cause)),
        TextFault::Memory => return None,
    };
    Some(Refusal::at_place(reason, line, column))
}

// Returns by its numbers for C why the part is not a valid ACL.
fn invalid_refusal(part: Part, cause: Cause) -> Refusal
    ensures { result ≡ invalid_refusal (part_number part) cause }
{
    match cause {
        Cause::Multi(place) => Refusal::in_part(Reason::Multi, part, place),
        Cause::Duplicate(place) => Refusal::in_part(Reason::Duplicate, part, place),
        Cause::Miss(tag) => Refusal::missing(part, tag),
    }
}

/// Returns the number of a part in `enum aclck_part`.
pub(crate) fn part_number(part: Part) -> u32
    ensures { result ≡ part_number part }
{
    match part {
        Part::Access => 0,
        Part::Default => 1,
    }
}

/// Returns the number of a tag in `enum aclck_tag`.
pub(crate) fn tag_number(tag: Tag) -> u32
    ensures { result ≡ tag_number tag }
{
    match tag {
        Tag::UserObj => 1,
        Tag::User(_) => 2,
        Tag::GroupObj => 3,
        Tag::Group(_) => 4,
        Tag::Mask => 5,
        Tag::Other => 6,
    }
}
