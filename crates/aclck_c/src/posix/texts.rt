//! Calls that write a text or bytes made from the POSIX ACLs that a text spells with its names. Each returns 0 if its
//! result is at the front of `out`; 2 if the text is refused, with the reason in `fault`; 3 if the names make no table
//! or an option has no meaning; 4 if memory ran out; 5 if `out` is too short. At 0 and 5 `needed` is the number of
//! bytes of the result.
ghost use Rattle.std.specs.Prelude.{◌≡◌};
ghost use Rattle.acl_posix.specs.Programs.{created_text, file_text, masked_text};
ghost use Rattle.acl_eval.specs.Programs.{Bridges};
ghost use Rattle.aclck_c.specs.Create.{IsCreation};
ghost use Rattle.aclck_c.specs.Options.{form_from};
ghost use Rattle.aclck_c.specs.Posix.{IsCreated, IsRefusedBridge, IsShown, IsWithMode};
ghost use Rattle.aclck_c.specs.internal.Failures.{IsBridgeFailure, of_bridge};
ghost use Rattle.aclck_c.specs.Common.{⊤, IfErr, IfOk, IfSome, IsMode, IsSome, WritesOfFile, WritesOfText, MakesOfFile, SpellsFile, IsFileFailure};

use crate::failure::Failure;
use crate::options::{form_from, mode_from};
use crate::out::answer;
use crate::posix::creation::{PosixCreation, RawCreation, creation_of};
use crate::posix::file::{RawPosixText, file_of};
use crate::reason::Reason;
use crate::refusal::Refusal;
use crate::status::Status;
use acl_eval::{BridgeFault, bridge};
use acl_perm::Mode;
use acl_posix::{AclTextForm, create};
use std::alloc::Global;

/// Writes the text of the ACLs in one form (acl(5), "LONG TEXT FORM", "SHORT TEXT FORM"). The form is the canonical one
/// if `options` is 0, the shown one if it is FORM_SHOWN, and the short one if it is FORM_SHORT, with a line feed after
/// it.
#[unsafe(no_mangle)]
pub extern "C" fn aclck_posix_show(
    alloc: Global,
    text: &RawPosixText<'_>,
    options: u32,
    out: &mut [u8],
    needed: &mut usize,
    fault: &mut Refusal,
) -> u32
    ensures { WritesOfText text.now (IsSome (form_from options))
        (IsShown text.now options)
        out.old out.new needed.old needed.new fault.old fault.new result }
{
    let Some(form) = form_from(options) else {
        return Status::BadArgument.number();
    };
    answer(shown(alloc, text, form), out, needed, fault)
}

fn shown(alloc: Global, text: &RawPosixText<'_>, form: AclTextForm) -> Result<Vec<u8>, Failure>
    ensures ok { IfOk result (λ made.
        MakesOfFile (SpellsFile text.now) (file_text form) made.items) }
    ensures err { IfErr result (IsFileFailure text.now) }
{
    let file = file_of(alloc, text)?;
    Ok(file.to_text(alloc, form)?)
}

/// Writes the canonical text of the ACLs after the mask of the access ACL is calculated, and added if there is none
/// (POSIX.1e draft 17, section 23.4).
#[unsafe(no_mangle)]
pub extern "C" fn aclck_posix_calc_mask(
    alloc: Global,
    text: &RawPosixText<'_>,
    out: &mut [u8],
    needed: &mut usize,
    fault: &mut Refusal,
) -> u32
    ensures { WritesOfText text.now ⊤
        (MakesOfFile (SpellsFile text.now) masked_text)
        out.old out.new needed.old needed.new fault.old fault.new result }
{
    answer(masked(alloc, text), out, needed, fault)
}

fn masked(alloc: Global, text: &RawPosixText<'_>) -> Result<Vec<u8>, Failure>
    ensures ok { IfOk result (λ made.
        MakesOfFile (SpellsFile text.now) masked_text made.items) }
    ensures err { IfErr result (IsFileFailure text.now) }
{
    let mut file = file_of(alloc, text)?;
    file.access.calc_mask()?;
    Ok(file.to_text(alloc, AclTextForm::Canonical)?)
}

/// Writes the canonical text of the ACLs after the mode of the access ACL is set (acl(5), "CORRESPONDENCE BETWEEN ACL
/// ENTRIES AND FILE PERMISSION BITS"). It also returns 3 if the mode is above 0o777.
#[unsafe(no_mangle)]
pub extern "C" fn aclck_posix_chmod(
    alloc: Global,
    text: &RawPosixText<'_>,
    mode: u32,
    out: &mut [u8],
    needed: &mut usize,
    fault: &mut Refusal,
) -> u32
    ensures { WritesOfText text.now (IsMode mode)
        (IsWithMode text.now mode)
        out.old out.new needed.old needed.new fault.old fault.new result }
{
    let Some(mode) = mode_from(mode) else {
        return Status::BadArgument.number();
    };
    answer(with_mode(alloc, text, mode), out, needed, fault)
}

fn with_mode(alloc: Global, text: &RawPosixText<'_>, mode: Mode) -> Result<Vec<u8>, Failure>
    ensures ok { IfOk result (λ made. IsWithMode text.now mode.bits made.items) }
    ensures err { IfErr result (IsFileFailure text.now) }
{
    let mut file = file_of(alloc, text)?;
    file.access.chmod(mode);
    Ok(file.to_text(alloc, AclTextForm::Canonical)?)
}

/// Writes the canonical text of a new object in a directory with the ACLs (acl(5), "OBJECT CREATION AND DEFAULT ACLs").
/// It also returns 3 if the mode or the umask is above 0o777.
#[unsafe(no_mangle)]
pub extern "C" fn aclck_posix_create(
    alloc: Global,
    text: &RawPosixText<'_>,
    creation: &RawCreation,
    out: &mut [u8],
    needed: &mut usize,
    fault: &mut Refusal,
) -> u32
    ensures { WritesOfText text.now (IsCreation creation.now)
        (IsCreated text.now creation.now)
        out.old out.new needed.old needed.new fault.old fault.new result }
{
    let Some(creation) = creation_of(creation) else {
        return Status::BadArgument.number();
    };
    answer(created(alloc, text, &creation), out, needed, fault)
}

fn created(
    alloc: Global,
    text: &RawPosixText<'_>,
    creation: &PosixCreation,
) -> Result<Vec<u8>, Failure>
    ensures ok { IfOk result (λ made. MakesOfFile (SpellsFile text.now)
        (created_text creation.now.mode.bits creation.now.umask.bits creation.now.is_directory)
        made.items) }
    ensures err { IfErr result (IsFileFailure text.now) }
{
    let parent = file_of(alloc, text)?;
    let default = parent.default.as_ref();
    let file = create(
        alloc,
        default,
        creation.mode,
        creation.umask,
        creation.is_directory,
    )?;
    Ok(file.to_text(alloc, AclTextForm::Canonical)?)
}

/// Writes the bytes of the NFSv4 list of the access ACL (this library's own, over POSIX.1e draft 17, section 23, and
/// RFC 8881, section 6.2.1). It also returns 2 if the list is above a limit.
#[unsafe(no_mangle)]
pub extern "C" fn aclck_posix_bridge(
    alloc: Global,
    text: &RawPosixText<'_>,
    out: &mut [u8],
    needed: &mut usize,
    fault: &mut Refusal,
) -> u32
    ensures { WritesOfFile text.now ⊤ (IsRefusedBridge text.now)
        (Bridges (SpellsFile text.now))
        out.old out.new needed.old needed.new fault.old fault.new result }
{
    answer(bridged(alloc, text), out, needed, fault)
}

impl From<BridgeFault> for Failure {
    ghost from_gives = { λ fault failure. failure ≡ of_bridge fault };

    fn from(fault: BridgeFault) -> Failure {
        match fault {
            BridgeFault::Limits => Failure::Refused(Refusal::at(Reason::Limits, 0)),
            BridgeFault::Memory => Failure::Memory,
        }
    }
}

// Fails if the text is refused, the list is above a limit, or memory runs out.
#[tactic(auto, using(crate::proofs::Bridges::bridge_failure, crate::proofs::Bridges::file_failure))]
fn bridged(alloc: Global, text: &RawPosixText<'_>) -> Result<Vec<u8>, Failure>
    ensures ok { IfOk result (λ bytes. Bridges (SpellsFile text.now) bytes.items) }
    ensures err { IfErr result (IsBridgeFailure text.now) }
{
    let file = file_of(alloc, text)?;
    let list = bridge(alloc, &file.access)?;
    Ok(list.to_bytes(alloc)?)
}
