//! Calls that make entries or bytes of POSIX entries, which may be in any order, or of an attribute. Each returns 0 if
//! its result is at the front of `out`; 2 if the input is refused, with the reason in `fault`; 3 if a number or an
//! option has no meaning; 4 if memory ran out; 5 if `out` is too short. At 0 and 5 `needed` is the length of the
//! result.
ghost use Rattle.std.specs.Prelude.{◌≡◌};
ghost use Rattle.acl_posix.specs.Attribute.{attribute_bytes};
ghost use Rattle.aclck_c.specs.Create.{IsCreation};
ghost use Rattle.aclck_c.specs.Entries.{AreRefused, AreRefusedBridge, AreRefusedFor, BridgesEntries, HasRaws, HoldEntries, HoldEntriesFor, IsRefusedAttribute, MakesOfAcl, created_raws, mask_raws, mode_raws, raws_of};
ghost use Rattle.aclck_c.specs.Call.{WritesOfEntries};
ghost use Rattle.aclck_c.specs.Options.{IsMaskOption, add_mask_option, has_option};
ghost use Rattle.aclck_c.specs.internal.Failures.{AreBridgeFailure, AreFailure, AreFailureFor, IsAttributeFailure};
ghost use Rattle.aclck_c.specs.Common.{⊤, IfErr, IfOk, IsMode};

use crate::failure::Failure;
use crate::options::{adds_mask_from, mode_from};
use crate::out::answer;
use crate::posix::creation::{PosixCreation, RawCreation, creation_of};
use crate::posix::entries::{acl_of, acl_with_mask_of, raws_of};
use crate::refusal::Refusal;
use crate::status::Status;
use acl_eval::bridge;
use acl_perm::Mode;
use acl_posix::{PosixAcl, RawEntry, create};
use std::alloc::Global;

/// Writes the entries in canonical order (POSIX.1e draft 17, section 23.1.2). By an option they first get the MASK that
/// they lack, as `setfacl -m` adds it.
#[unsafe(no_mangle)]
pub extern "C" fn aclck_entries_sorted(
    alloc: Global,
    entries: &[RawEntry],
    options: u32,
    out: &mut [RawEntry],
    needed: &mut usize,
    fault: &mut Refusal,
) -> u32
    ensures { WritesOfEntries (IsMaskOption options)
        (AreRefusedFor (has_option add_mask_option options) entries.now)
        (MakesOfAcl (HoldEntriesFor (has_option add_mask_option options) entries.now) raws_of)
        out.old out.new needed.old needed.new fault.old fault.new result }
{
    let Some(adds_mask) = adds_mask_from(options) else {
        return Status::BadArgument.number();
    };
    answer(sorted(alloc, entries, adds_mask), out, needed, fault)
}

fn sorted(alloc: Global, entries: &[RawEntry], adds_mask: bool) -> Result<Vec<RawEntry>, Failure>
    ensures ok { IfOk result (λ made.
        MakesOfAcl (HoldEntriesFor adds_mask entries.now) raws_of made.items) }
    ensures err { IfErr result (AreFailureFor adds_mask entries.now) }
{
    let acl = acl_for(alloc, entries, adds_mask)?;
    Ok(raws_of(alloc, &acl)?)
}

fn acl_for(alloc: Global, entries: &[RawEntry], adds_mask: bool) -> Result<PosixAcl, Failure>
    ensures ok { IfOk result (HoldEntriesFor adds_mask entries.now) }
    ensures err { IfErr result (AreFailureFor adds_mask entries.now) }
{
    if adds_mask {
        acl_with_mask_of(alloc, entries)
    } else {
        acl_of(alloc, entries)
    }
}

/// Writes the entries in canonical order after the mode is set (acl(5), "CORRESPONDENCE BETWEEN ACL ENTRIES AND FILE
/// PERMISSION BITS"). It also returns 3 if the mode is above 0o777.
#[unsafe(no_mangle)]
pub extern "C" fn aclck_entries_chmod(
    alloc: Global,
    entries: &[RawEntry],
    mode: u32,
    out: &mut [RawEntry],
    needed: &mut usize,
    fault: &mut Refusal,
) -> u32
    ensures { WritesOfEntries (IsMode mode) (AreRefused entries.now)
        (MakesOfAcl (HoldEntries entries.now) (mode_raws mode))
        out.old out.new needed.old needed.new fault.old fault.new result }
{
    let Some(mode) = mode_from(mode) else {
        return Status::BadArgument.number();
    };
    answer(with_mode(alloc, entries, mode), out, needed, fault)
}

fn with_mode(alloc: Global, entries: &[RawEntry], mode: Mode) -> Result<Vec<RawEntry>, Failure>
    ensures ok { IfOk result (λ made.
        MakesOfAcl (HoldEntries entries.now) (mode_raws mode.bits) made.items) }
    ensures err { IfErr result (AreFailure entries.now) }
{
    let mut acl = acl_of(alloc, entries)?;
    acl.chmod(mode);
    Ok(raws_of(alloc, &acl)?)
}

/// Writes the entries in canonical order after the mask is calculated, and added if there is none (POSIX.1e draft 17,
/// section 23.4).
#[unsafe(no_mangle)]
pub extern "C" fn aclck_entries_calc_mask(
    alloc: Global,
    entries: &[RawEntry],
    out: &mut [RawEntry],
    needed: &mut usize,
    fault: &mut Refusal,
) -> u32
    ensures { WritesOfEntries ⊤ (AreRefused entries.now)
        (MakesOfAcl (HoldEntries entries.now) mask_raws)
        out.old out.new needed.old needed.new fault.old fault.new result }
{
    answer(masked(alloc, entries), out, needed, fault)
}

fn masked(alloc: Global, entries: &[RawEntry]) -> Result<Vec<RawEntry>, Failure>
    ensures ok { IfOk result (λ made. MakesOfAcl (HoldEntries entries.now) mask_raws made.items) }
    ensures err { IfErr result (AreFailure entries.now) }
{
    let mut acl = acl_of(alloc, entries)?;
    acl.calc_mask()?;
    Ok(raws_of(alloc, &acl)?)
}

/// Writes the entries of the access ACL of a new object in a directory with this default ACL (acl(5), "OBJECT CREATION
/// AND DEFAULT ACLs"). It also returns 3 if the mode or the umask is above 0o777.
#[unsafe(no_mangle)]
pub extern "C" fn aclck_entries_create(
    alloc: Global,
    default: &[RawEntry],
    creation: &RawCreation,
    out: &mut [RawEntry],
    needed: &mut usize,
    fault: &mut Refusal,
) -> u32
    ensures { WritesOfEntries (IsCreation creation.now) (AreRefused default.now)
        (MakesOfAcl (HoldEntries default.now)
        (created_raws creation.now.mode creation.now.umask))
        out.old out.new needed.old needed.new fault.old fault.new result }
{
    let Some(creation) = creation_of(creation) else {
        return Status::BadArgument.number();
    };
    answer(created(alloc, default, &creation), out, needed, fault)
}

fn created(
    alloc: Global,
    default: &[RawEntry],
    creation: &PosixCreation,
) -> Result<Vec<RawEntry>, Failure>
    ensures ok { IfOk result (λ made. MakesOfAcl (HoldEntries default.now)
        (created_raws creation.now.mode.bits creation.now.umask.bits) made.items) }
    ensures err { IfErr result (AreFailure default.now) }
{
    let default = acl_of(alloc, default)?;
    let file = create(alloc, Some(&default), creation.mode, creation.umask, false)?;
    Ok(raws_of(alloc, &file.access)?)
}

/// Writes the bytes of the NFSv4 list of the entries (this library's own, over POSIX.1e draft 17, section 23, and RFC
/// 8881, section 6.2.1). It also returns 2 if the list is above a limit.
#[unsafe(no_mangle)]
pub extern "C" fn aclck_entries_bridge(
    alloc: Global,
    entries: &[RawEntry],
    out: &mut [u8],
    needed: &mut usize,
    fault: &mut Refusal,
) -> u32
    ensures { WritesOfEntries ⊤ (AreRefusedBridge entries.now) (BridgesEntries entries.now)
        out.old out.new needed.old needed.new fault.old fault.new result }
{
    answer(bridged(alloc, entries), out, needed, fault)
}

#[tactic(auto, using(crate::proofs::EntriesFailures::bridge_failure, crate::proofs::EntriesFailures::acl_failure))]
fn bridged(alloc: Global, entries: &[RawEntry]) -> Result<Vec<u8>, Failure>
    ensures ok { IfOk result (λ bytes. BridgesEntries entries.now bytes.items) }
    ensures err { IfErr result (AreBridgeFailure entries.now) }
{
    let acl = acl_of(alloc, entries)?;
    let list = bridge(alloc, &acl)?;
    Ok(list.to_bytes(alloc)?)
}

/// Writes the bytes of the attribute `system.posix_acl_access` or `system.posix_acl_default` that holds the entries.
#[unsafe(no_mangle)]
pub extern "C" fn aclck_entries_to_attribute(
    alloc: Global,
    entries: &[RawEntry],
    out: &mut [u8],
    needed: &mut usize,
    fault: &mut Refusal,
) -> u32
    ensures { WritesOfEntries ⊤ (AreRefused entries.now)
        (MakesOfAcl (HoldEntries entries.now) attribute_bytes)
        out.old out.new needed.old needed.new fault.old fault.new result }
{
    answer(attribute_of(alloc, entries), out, needed, fault)
}

fn attribute_of(alloc: Global, entries: &[RawEntry]) -> Result<Vec<u8>, Failure>
    ensures ok { IfOk result (λ made.
        MakesOfAcl (HoldEntries entries.now) attribute_bytes made.items) }
    ensures err { IfErr result (AreFailure entries.now) }
{
    let acl = acl_of(alloc, entries)?;
    Ok(acl.to_attribute(alloc)?)
}

/// Writes the entries that the attribute `system.posix_acl_access` or `system.posix_acl_default` holds, in canonical
/// order. There are none if the attribute has no entries, which means that there is no such ACL.
#[unsafe(no_mangle)]
pub extern "C" fn aclck_entries_from_attribute(
    alloc: Global,
    attribute: &[u8],
    out: &mut [RawEntry],
    needed: &mut usize,
    fault: &mut Refusal,
) -> u32
    ensures { WritesOfEntries ⊤ (IsRefusedAttribute attribute.now) (HasRaws attribute.now)
        out.old out.new needed.old needed.new fault.old fault.new result }
{
    answer(entries_in(alloc, attribute), out, needed, fault)
}

#[tactic(auto, using(crate::proofs::EntriesFailures::attribute_failure))]
fn entries_in(alloc: Global, attribute: &[u8]) -> Result<Vec<RawEntry>, Failure>
    ensures ok { IfOk result (λ made. HasRaws attribute.now made.items) }
    ensures err { IfErr result (IsAttributeFailure attribute.now) }
{
    match PosixAcl::from_attribute(alloc, attribute)? {
        Some(acl) => Ok(raws_of(alloc, &acl)?),
        None => Ok(Vec::new(alloc)),
    }
}
