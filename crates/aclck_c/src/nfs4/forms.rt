//! Lists in the forms of other systems: what a value of a form spells, and the value of a list.
ghost use Rattle.acl_perm.specs.Profile.{full};
ghost use Rattle.aclck_c.specs.FormValues.{IsGoodForm, IsRefusedForNumber, IsRefusedValueIn, IsValueOf, MakesFormValue, MakesFormValueIn, ReadsFormValue, ReadsFormValueIn, form_of_number, style_of_number, text_of_number};
ghost use Rattle.aclck_c.specs.Lists.{AreList};
ghost use Rattle.aclck_c.specs.Status as status;
ghost use Rattle.aclck_c.specs.internal.FormFailures.{IsFormFailure, IsHoldingFailure, IsValueFailure};
ghost use Rattle.std.specs.Prelude.{◌≡◌};
ghost use Rattle.aclck_c.specs.Common.{⊤, IfErr, IfOk, IsSome, JudgesInput, WritesBytes};

use crate::failure::Failure;
use crate::nfs4::form_fault::holding_refusal;
use crate::out::{Made, answer, answer_both};
use crate::refusal::Refusal;
use crate::status::Status;
use acl_forms::{
    AclFlags, EntrySeparator, Form, FormWriteFault, LetterStyle, ObjectKind, Style, WhoField, read,
    write,
};
use acl_nfs4::AclView;
use acl_perm::Counted;
use std::alloc::Global;

// The bits of a style that may be added to the number of a text, and the other bits.
const COMMAS: u32 = 16;

const FULL: u32 = 32;

const WITHOUT_STYLE: u32 = 0xffff_ffcf;

/// Writes the bytes of the list that a value of a form spells, and the flags of the list into `flags`; a text has none.
/// `form` is a number of `enum aclck_form`; the bits of a style have no effect. Returns 0 if the bytes are at the front
/// of `out`; 2 if the value is refused, with the reason and the place of a byte in `fault`; 3 if no form has the
/// number; 4 if memory ran out; 5 if `out` is too short. At 0 and 5 `needed` is the number of bytes, and the flags are
/// in `flags`.
#[unsafe(no_mangle)]
pub extern "C" fn aclck_read_form(
    alloc: Global,
    value: &[u8],
    form: u32,
    out: &mut [u8],
    needed: &mut usize,
    flags: &mut u32,
    fault: &mut Refusal,
) -> u32
    ensures bytes { WritesBytes (ReadsFormValueIn form value.now flags.new)
        out.old out.new needed.old needed.new result }
    ensures flags { status.IfUnanswered result (flags.new ≡ flags.old) }
    ensures input { JudgesInput (IsRefusedValueIn form value.now) ⊤ (IsSome (form_of_number form))
        status.done_or_short fault.old fault.new result }
{
    let Some(form) = form_of_number(form) else {
        return Status::BadArgument.number();
    };
    answer_both(list_in(alloc, value, form), flags, out, needed, fault)
}

// Returns the flags and the bytes of the list. Fails if the value is refused or memory runs out.
#[tactic(auto, using(crate::proofs::FormValues::value_failure))]
fn list_in(alloc: Global, value: &[u8], form: Form) -> Result<Made<u32, u8>, Failure>
    ensures ok { IfOk result (λ found.
        ReadsFormValue form value.now found.value found.items.items) }
    ensures err { IfErr result (IsValueFailure form value.now) }
{
    let (flags, list) = read(alloc, form, value)?;
    Ok(Made {
        value: flags.bits(),
        items: list.to_bytes(alloc)?,
    })
}

/// Writes the value of flags and of a list in a form. `form` is a number of `enum aclck_form`. Returns 0 if the value
/// is at the front of `out`; 2 if the bytes of the list are refused, or the form cannot hold the list, with the reason
/// and the place of a byte or of an ACE in `fault`; 3 if no form has the number, or `flags` has another bit than those
/// of `enum aclck_acl_flag`; 4 if memory ran out; 5 if `out` is too short. At 0 and 5 `needed` is the number of bytes.
#[unsafe(no_mangle)]
pub extern "C" fn aclck_write_form(
    alloc: Global,
    acl: &[u8],
    form: u32,
    flags: u32,
    out: &mut [u8],
    needed: &mut usize,
    fault: &mut Refusal,
) -> u32
    ensures bytes { WritesBytes (MakesFormValueIn form flags acl.now)
        out.old out.new needed.old needed.new result }
    ensures input { JudgesInput (IsRefusedForNumber form flags acl.now) (AreList full acl.now)
        (IsGoodForm form flags) status.done_or_short fault.old fault.new result }
{
    let Some(form) = form_of_number(form) else {
        return Status::BadArgument.number();
    };
    let Some(flags) = AclFlags::new(flags) else {
        return Status::BadArgument.number();
    };
    answer(value_of(alloc, acl, form, flags), out, needed, fault)
}

// Fails if the bytes are refused, the form cannot hold the list, or memory runs out.
#[tactic(auto, using(crate::proofs::FormValues::list_failure, crate::proofs::FormValues::holding_failure))]
fn value_of(alloc: Global, acl: &[u8], form: Form, flags: AclFlags) -> Result<Vec<u8>, Failure>
    ensures ok { IfOk result (λ value. MakesFormValue form flags.bits acl.now value.items) }
    ensures err { IfErr result (IsFormFailure form flags.bits acl.now) }
{
    let list = AclView::parse_whole(acl)?;
    written(alloc, form, flags, &list)
}

// A write into memory fails only if memory runs out.
fn written(
    alloc: Global,
    form: Form,
    flags: AclFlags,
    list: &AclView<'_>,
) -> Result<Vec<u8>, Failure>
    ensures ok { IfOk result (λ value. IsValueOf form flags.bits list.now value.items) }
    ensures err { IfErr result (IsHoldingFailure form flags.bits list.now) }
{
    let mut value = Counted::new(Vec::new(alloc));
    match write(form, flags, list, &mut value) {
        Ok(()) => Ok(value.into_inner()),
        Err(FormWriteFault::Form(fault)) => Err(Failure::Refused(holding_refusal(fault))),
        Err(FormWriteFault::Write(_)) => Err(Failure::Memory),
    }
}

/// Returns the form with this number in `enum aclck_form`.
pub(crate) fn form_of_number(number: u32) -> Option<Form>
    ensures { result ≡ form_of_number number }
{
    match number {
        1 => Some(Form::NfsTools(ObjectKind::File)),
        2 => Some(Form::NfsTools(ObjectKind::Directory)),
        3 => Some(Form::NfsAcl41),
        4 => Some(Form::NfsAcl41Ids),
        _ => text_of_number(number),
    }
}

// Returns the text with this number, to which the bits of a style may be added.
fn text_of_number(number: u32) -> Option<Form>
    ensures { result ≡ text_of_number number }
{
    match number & WITHOUT_STYLE {
        5 => Some(Form::NfsText(WhoField::Name, style_of_number(number))),
        6 => Some(Form::NfsText(WhoField::Id, style_of_number(number))),
        _ => None,
    }
}

// Returns the style of the bits of a number.
fn style_of_number(number: u32) -> Style
    ensures { result ≡ style_of_number number }
{
    let separator = if number & COMMAS == 0 {
        EntrySeparator::LineFeeds
    } else {
        EntrySeparator::Commas
    };
    let letters = if number & FULL == 0 {
        LetterStyle::Compact
    } else {
        LetterStyle::Full
    };
    Style { separator, letters }
}
