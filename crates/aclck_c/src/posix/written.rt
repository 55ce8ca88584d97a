//! Values of POSIX entries, in the forms in which archives and Linux keep them.
ghost use Rattle.std.specs.Prelude.{◌≡◌};
ghost use Rattle.aclck_c.specs.PosixWriting.{IsPosixValueOf, MakesPosixValue, MakesPosixValueIn, ReadsForForm, written_form_of_number};
ghost use Rattle.aclck_c.specs.declared.posix.written.WrittenForm.TheVariants.{Text};
ghost use Rattle.aclck_c.specs.internal.FormFailures.{IsPosixHoldingFailure, IsWritingFailure};
ghost use Rattle.aclck_c.specs.Common.{IfErr, IfOk, WritesBytes};

use crate::failure::Failure;
use crate::nfs4::form_fault::holding_refusal;
use crate::nfs4::ids::RawNames;
use crate::out::answer;
use crate::posix::entries::acl_of;
use crate::posix::names::{RawName, id_names_of};
use crate::refusal::Refusal;
use crate::status::Status;
use acl_forms::{FormWriteFault, IdNames, TarStyle, write_posix_text};
use acl_perm::Counted;
use acl_posix::{PosixAcl, RawEntry};
use std::alloc::Global;

/// A form in which a POSIX ACL is written.
#[derive(Clone, Copy, Debug, PartialEq, Eq)]
pub enum WrittenForm {
    /// An extended attribute of Linux.
    Attribute,
    /// The text that archives keep in `SCHILY.acl.access` or in `SCHILY.acl.default`.
    Text(TarStyle),
}

/// Writes the value of the entries in a form. The entries may be in any order. `form` is a number of
/// `enum aclck_posix_form`; a text has the names in place of ids, and the first row with an id has its name. Returns 0
/// if the value is at the front of `out`; 2 if the entries are refused, or the form cannot hold them, with the reason
/// and the place of an entry in `fault`; 3 if no form with the number is written or the names make no table; 4 if
/// memory ran out; 5 if `out` is too short. At 0 and 5 `needed` is the number of bytes.
#[unsafe(no_mangle)]
pub extern "C" fn aclck_entries_to_form(
    alloc: Global,
    entries: &[RawEntry],
    names: &RawNames<'_>,
    form: u32,
    out: &mut [u8],
    needed: &mut usize,
    fault: &mut Refusal,
) -> u32
    ensures bytes { WritesBytes (MakesPosixValueIn form names.now.names.now entries.now)
        out.old out.new needed.old needed.new result }
    ensures input { ReadsForForm form names.now.names.now entries.now fault.old fault.new result }
{
    let Some(form) = written_form_of_number(form) else {
        return Status::BadArgument.number();
    };
    answer(
        value_of(alloc, entries, names.names, form),
        out,
        needed,
        fault,
    )
}

// Returns the form that is written for a number of `enum aclck_posix_form`.
fn written_form_of_number(number: u32) -> Option<WrittenForm>
    ensures { result ≡ written_form_of_number number }
{
    match number {
        1 => Some(WrittenForm::Attribute),
        2 | 4 => Some(WrittenForm::Text(TarStyle::Star)),
        18 | 20 => Some(WrittenForm::Text(TarStyle::Gnu)),
        _ => None,
    }
}

// Fails if the names make no table, the entries are refused, the form cannot hold them, or memory runs out.
#[tactic(auto, using(crate::proofs::PosixWriting::names_failure, crate::proofs::PosixWriting::entries_failure, crate::proofs::PosixWriting::holding_failure))]
fn value_of(
    alloc: Global,
    entries: &[RawEntry],
    names: &[RawName<'_>],
    form: WrittenForm,
) -> Result<Vec<u8>, Failure>
    ensures ok { IfOk result (λ value. MakesPosixValue form names.now entries.now value.items) }
    ensures err { IfErr result (IsWritingFailure form names.now entries.now) }
{
    let ids = id_names_of(alloc, names)?;
    let acl = acl_of(alloc, entries)?;
    written(alloc, &acl, &ids, form)
}

fn written(
    alloc: Global,
    acl: &PosixAcl,
    names: &IdNames,
    form: WrittenForm,
) -> Result<Vec<u8>, Failure>
    ensures ok { IfOk result (λ value. IsPosixValueOf form names.now acl.now value.items) }
    ensures err { IfErr result (IsPosixHoldingFailure form names.now acl.now) }
{
    match form {
        WrittenForm::Attribute => Ok(acl.to_attribute(alloc)?),
        WrittenForm::Text(style) => text_of(alloc, acl, names, style),
    }
}

// A write into memory fails only if memory runs out.
fn text_of(
    alloc: Global,
    acl: &PosixAcl,
    names: &IdNames,
    style: TarStyle,
) -> Result<Vec<u8>, Failure>
    ensures ok { IfOk result (λ value. IsPosixValueOf (Text style) names.now acl.now value.items) }
    ensures err { IfErr result (IsPosixHoldingFailure (Text style) names.now acl.now) }
{
    let mut value = Counted::new(Vec::new(alloc));
    match write_posix_text(acl, names, style, &mut value) {
        Ok(()) => Ok(value.into_inner()),
        Err(FormWriteFault::Form(fault)) => Err(Failure::Refused(holding_refusal(fault))),
        Err(FormWriteFault::Write(_)) => Err(Failure::Memory),
    }
}
