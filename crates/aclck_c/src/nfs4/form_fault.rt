//! Why a value of a form is refused, and why a form cannot hold a list, by numbers.
ghost use Rattle.std.specs.Prelude.{◌≡◌};
ghost use Rattle.aclck_c.specs.FormValues.{form_reason_number, read_reason_number, value_refusal};
ghost use Rattle.aclck_c.specs.Refusal.{in_value};
ghost use Rattle.aclck_c.specs.internal.FormFailures.{of_value};
ghost use Rattle.aclck_c.specs.internal.Numbers.{number_of_reason};

use crate::failure::Failure;
use crate::posix::text_fault::tag_number;
use crate::reason::Reason;
use crate::refusal::Refusal;
use acl_forms::{FormFault, FormReason, ReadFault, ReadReason};
use acl_nfs4::Reason as ListReason;

impl From<ReadFault> for Failure {
    ghost from_gives = { λ fault failure. failure ≡ of_value fault };

    fn from(fault: ReadFault) -> Failure {
        Failure::of_refusal(value_refusal(fault))
    }
}

// Returns the fault of a value by its numbers for C, or `None` if memory ran out.
fn value_refusal(fault: ReadFault) -> Option<Refusal>
    ensures { result ≡ value_refusal fault }
{
    let ReadFault { offset, reason } = fault;
    match reason {
        ReadReason::List(ListReason::Memory) => None,
        ReadReason::Miss(tag) => Some(Refusal {
            tag: tag_number(tag),
            ..Refusal::at(Reason::Miss, offset)
        }),
        _ => Some(Refusal::at(read_reason(reason), offset)),
    }
}

fn read_reason(reason: ReadReason) -> Reason
    ensures { number_of_reason result ≡ read_reason_number reason }
{
    match reason {
        ReadReason::List(why) => Reason::from(why),
        ReadReason::AclFlagBits => Reason::AclFlagBits,
        ReadReason::IflagBits => Reason::IflagBits,
        ReadReason::Id => Reason::Id,
        ReadReason::Version => Reason::Version,
        ReadReason::Tag => Reason::Tag,
        ReadReason::Permission => Reason::Permission,
        ReadReason::Qualifier => Reason::Qualifier,
        ReadReason::Order => Reason::Order,
        ReadReason::Multi => Reason::Multi,
        ReadReason::Duplicate => Reason::Duplicate,
        ReadReason::Miss(_) => Reason::Miss,
        ReadReason::Fields => Reason::Fields,
        ReadReason::Flag => Reason::Flag,
        ReadReason::Mask => Reason::Mask,
        ReadReason::NotDirectory => Reason::NotDirectory,
        ReadReason::Empty => Reason::Empty,
        ReadReason::EmptyEntry => Reason::EmptyEntry,
        ReadReason::IdDiffers => Reason::IdDiffers,
        ReadReason::UnknownName => Reason::UnknownName,
        ReadReason::Comment => Reason::Comment,
        ReadReason::Nul => Reason::Nul,
        ReadReason::TooLong => Reason::TooLong,
    }
}

/// Returns by its numbers for C why a form cannot hold a list.
pub(crate) fn holding_refusal(fault: FormFault) -> Refusal
    ensures { result ≡ in_value fault.place (form_reason_number fault.reason) 0 }
{
    Refusal::at(form_reason(fault.reason), fault.place as u64)
}

fn form_reason(reason: FormReason) -> Reason
    ensures { number_of_reason result ≡ form_reason_number reason }
{
    match reason {
        FormReason::NoId => Reason::NoId,
        FormReason::Inherited => Reason::Inherited,
        FormReason::Retention => Reason::Retention,
        FormReason::Separator => Reason::Separator,
        FormReason::NotDirectory => Reason::NotDirectory,
        FormReason::TooLong => Reason::TooLong,
        FormReason::Empty => Reason::Empty,
        FormReason::Id => Reason::Id,
        FormReason::AclFlags => Reason::AclFlags,
    }
}
