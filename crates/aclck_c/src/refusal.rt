//! Why and where something is refused, as C sees it.
ghost use Rattle.std.specs.Prelude.{◌≡◌};
ghost use Rattle.acl_posix.specs.declared.text_fault.Cause.TheVariants as cause;
ghost use Rattle.aclck_c.specs.EntriesExcess.{of_second};
ghost use Rattle.aclck_c.specs.Posix.{invalid_refusal, part_number};
ghost use Rattle.aclck_c.specs.Refusal.{at_place, in_list, in_part, in_value};
ghost use Rattle.aclck_c.specs.internal.Numbers.{number_of_reason};

use crate::posix::text_fault::{part_number, tag_number};
use crate::reason::Reason;
use acl_nfs4::Fault;
use acl_posix::{Part, Tag};

/// `struct aclck_fault`: a reason by its number, and its place. Fields that the reason does not use are 0.
#[repr(C)]
#[derive(Clone, Copy, Debug)]
pub struct Refusal {
    /// The place of the refused field of a list, or of the refused entry of a POSIX ACL, from 0.
    pub offset: u64,
    /// The line of a text, from 1.
    pub line: u64,
    /// The column of a text, from 1.
    pub column: u64,
    /// The number of the reason in `enum aclck_reason`.
    pub reason: u32,
    /// 1 for the second of two lists.
    pub list: u32,
    /// 1 for the default part of a POSIX ACL.
    pub part: u32,
    /// The number in `enum aclck_tag` of the entry that is missing.
    pub tag: u32,
}

impl Refusal {
    /// Makes the refusal for this reason of an input at this byte, or of the ACE or the entry at this place.
    pub(crate) fn at(reason: Reason, place: u64) -> Refusal
        ensures { result ≡ in_value place (number_of_reason reason) 0 }
    {
        Refusal {
            offset: place,
            line: 0,
            column: 0,
            reason: reason.number(),
            list: 0,
            part: 0,
            tag: 0,
        }
    }

    /// Makes the refusal of the bytes of a list, which is the first or only one of a call.
    pub(crate) fn in_list(fault: Fault) -> Refusal
        ensures { result ≡ in_list fault.offset fault.reason 0 }
    {
        Refusal::at(Reason::from(fault.reason), fault.offset)
    }

    /// Makes the refusal of a text for this reason, at this line and column.
    pub(crate) fn at_place(reason: Reason, line: usize, column: usize) -> Refusal
        ensures { result ≡ at_place (number_of_reason reason) line column }
    {
        Refusal {
            line: line as u64,
            column: column as u64,
            ..Refusal::at(reason, 0)
        }
    }

    /// Makes the refusal of a part of a POSIX ACL for this reason, of the entry at this place.
    pub(crate) fn in_part(reason: Reason, part: Part, place: usize) -> Refusal
        ensures { result ≡ in_part (number_of_reason reason) (part_number part) place 0 }
    {
        Refusal {
            part: part_number(part),
            ..Refusal::at(reason, place as u64)
        }
    }

    /// Makes the refusal of a part of a POSIX ACL that has no entry with this tag.
    pub(crate) fn missing(part: Part, tag: Tag) -> Refusal
        ensures { result ≡ invalid_refusal (part_number part) (cause.Miss tag) }
    {
        Refusal {
            tag: tag_number(tag),
            ..Refusal::in_part(Reason::Miss, part, 0)
        }
    }

    /// Makes the refusal of the second of two lists out of that of a first one.
    pub(crate) fn of_second(self) -> Refusal
        ensures { result ≡ of_second self }
    {
        Refusal { list: 1, ..self }
    }
}
