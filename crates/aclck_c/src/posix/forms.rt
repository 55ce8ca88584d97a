//! POSIX ACLs in the forms in which archives and Linux keep them: the entries of a value.
ghost use Rattle.std.specs.Prelude.{◌≡◌, ◌⊎◌};
ghost use Rattle.acl_forms.specs.ReadFaults.{no_memory_left};
ghost use Rattle.aclck_c.specs.PosixForms.{HasAcl, IsPosixFaultAt, IsRefusedPosixValueIn, ReadsPosixValue, ReadsPosixValueIn, posix_form_of_number};
ghost use Rattle.aclck_c.specs.internal.FormFailures.{IsPosixValueFailure};
ghost use Rattle.aclck_c.specs.Common.{IfErr, IfOk, IsSome, WritesOfFile};

use crate::failure::Failure;
use crate::out::answer;
use crate::posix::entries::raws_of;
use crate::posix::file::RawPosixText;
use crate::posix::names::table_of;
use crate::refusal::Refusal;
use crate::status::Status;
use acl_forms::{ReadFault, read_attribute, read_default_text, read_posix_text};
use acl_posix::{Names, PosixAcl, RawEntry};
use std::alloc::Global;

/// A form of POSIX ACLs, and which ACL of a value is meant.
#[derive(Clone, Copy, Debug, PartialEq, Eq)]
pub enum PosixForm {
    /// The ACL of an extended attribute of Linux.
    Attribute,
    /// The access ACL of a text that archives keep in `SCHILY.acl.access`.
    Text,
    /// The default ACL of such a text, if it has one.
    DefaultOfText,
    /// The ACL of a text that archives keep in `SCHILY.acl.default`.
    DefaultText,
}

/// Writes the entries of the ACL that a value of a form spells, in canonical order, and none if the text has no default
/// ACL. `form` is a number of `enum aclck_posix_form`, in which the style of GNU tar has no effect, and the value is
/// the text of `value`, whose names may stand in a text. Returns 0 if the entries are at the front of `out`; 2 if the
/// value is refused, with the reason and the place of a byte in `fault`; 3 if no form has the number or the names make
/// no table; 4 if memory ran out; 5 if `out` is too short. At 0 and 5 `needed` is the number of entries.
#[unsafe(no_mangle)]
pub extern "C" fn aclck_entries_from_form(
    alloc: Global,
    value: &RawPosixText<'_>,
    form: u32,
    out: &mut [RawEntry],
    needed: &mut usize,
    fault: &mut Refusal,
) -> u32
    ensures { WritesOfFile value.now (IsSome (posix_form_of_number form))
        (IsRefusedPosixValueIn form value.now) (ReadsPosixValueIn form value.now)
        out.old out.new needed.old needed.new fault.old fault.new result }
{
    let Some(form) = posix_form_of_number(form) else {
        return Status::BadArgument.number();
    };
    answer(entries_of(alloc, value, form), out, needed, fault)
}

// Returns the form with this number in `enum aclck_posix_form`.
fn posix_form_of_number(number: u32) -> Option<PosixForm>
    ensures { result ≡ posix_form_of_number number }
{
    match number {
        1 => Some(PosixForm::Attribute),
        2 | 18 => Some(PosixForm::Text),
        3 => Some(PosixForm::DefaultOfText),
        4 | 20 => Some(PosixForm::DefaultText),
        _ => None,
    }
}

// Returns the entries of the ACL that a value spells, or none if there is no ACL.
#[tactic(auto, using(crate::proofs::PosixForms::names_failure, crate::proofs::PosixForms::value_failure))]
fn entries_of(
    alloc: Global,
    value: &RawPosixText<'_>,
    form: PosixForm,
) -> Result<Vec<RawEntry>, Failure>
    ensures ok { IfOk result (λ made. ReadsPosixValue form value.now made.items) }
    ensures err { IfErr result (IsPosixValueFailure form value.now) }
{
    let names = table_of(alloc, value.names)?;
    match acl_in(alloc, value.text, form, &names)? {
        Some(acl) => Ok(raws_of(alloc, &acl)?),
        None => Ok(Vec::new(alloc)),
    }
}

// Returns the ACL that a value spells, or `None` if it is the default ACL of a text that has none.
fn acl_in(
    alloc: Global,
    value: &[u8],
    form: PosixForm,
    names: &Names,
) -> Result<Option<PosixAcl>, ReadFault>
    ensures found { IfOk result (HasAcl form names.now value.now) }
    ensures fault { IfErr result (λ fault.
        (fault ≡ no_memory_left) ⊎ IsPosixFaultAt form names.now value.now fault) }
{
    match form {
        PosixForm::Attribute => Ok(Some(read_attribute(alloc, value)?)),
        PosixForm::Text => Ok(Some(read_posix_text(alloc, value, names)?.access)),
        PosixForm::DefaultOfText => Ok(read_posix_text(alloc, value, names)?.default),
        PosixForm::DefaultText => Ok(Some(read_default_text(alloc, value, names)?)),
    }
}
