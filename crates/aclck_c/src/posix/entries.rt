//! POSIX entries as an array, and what is wrong with them, by numbers.
ghost use Rattle.std.specs.Prelude.{◌≡◌, map};
ghost use Rattle.std.specs.FinMap as set;
ghost use Rattle.aclck_c.specs.Entries.{HoldEntries, HoldWithMask, acl_refusal, at_entry, attribute_refusal, entries_refusal, entry_reason, raws_of};
ghost use Rattle.aclck_c.specs.internal.Failures.{AreFailure, AreMaskedFailure, of_attribute, of_raw_entries};
ghost use Rattle.aclck_c.specs.internal.Numbers.{number_of_reason};
ghost use Rattle.aclck_c.specs.Common.{IfErr, IfOk};

use crate::failure::Failure;
use crate::reason::Reason;
use crate::refusal::Refusal;
use acl_posix::{AclFault, AttributeFault, EntriesFault, EntryFault, Part, PosixAcl, RawEntry};
use std::alloc::{AllocError, Global};

impl From<EntriesFault> for Failure {
    ghost from_gives = { λ fault failure. failure ≡ of_raw_entries fault };

    fn from(fault: EntriesFault) -> Failure {
        Failure::of_refusal(entries_refusal(fault))
    }
}

impl From<AttributeFault> for Failure {
    ghost from_gives = { λ fault failure. failure ≡ of_attribute fault };

    fn from(fault: AttributeFault) -> Failure {
        Failure::of_refusal(attribute_refusal(fault))
    }
}

/// Returns the ACL of the entries, which may be in any order. Fails if they are refused, or memory runs out.
#[tactic(auto, using(crate::proofs::EntriesFailures::entries_failure))]
pub(crate) fn acl_of(alloc: Global, entries: &[RawEntry]) -> Result<PosixAcl, Failure>
    ensures ok { IfOk result (HoldEntries entries.now) }
    ensures err { IfErr result (AreFailure entries.now) }
{
    Ok(PosixAcl::from_raw(alloc, entries)?)
}

/// Returns the ACL of the entries with the MASK that they lack. Fails as `acl_of` does.
#[tactic(auto, using(crate::proofs::EntriesFailures::masked_failure))]
pub(crate) fn acl_with_mask_of(alloc: Global, entries: &[RawEntry]) -> Result<PosixAcl, Failure>
    ensures ok { IfOk result (HoldWithMask entries.now) }
    ensures err { IfErr result (AreMaskedFailure entries.now) }
{
    Ok(PosixAcl::from_raw_with_mask(alloc, entries)?)
}

/// Returns the entries of an ACL in canonical order.
pub(crate) fn raws_of(alloc: Global, acl: &PosixAcl) -> Result<Vec<RawEntry>, AllocError>
    ensures { IfOk result (λ raws. raws.items ≡ raws_of acl.now) }
{
    let entries = acl.entries();
    let mut raws = Vec::with_capacity(alloc, entries.len())?;
    for entry in entries {
        raws.push(RawEntry::from_entry(*entry))?;
    }
    Ok(raws)
}

// Returns the fault of entries by its numbers for C, or `None` if memory ran out.
fn entries_refusal(fault: EntriesFault) -> Option<Refusal>
    ensures { result ≡ entries_refusal fault }
{
    match fault {
        EntriesFault::Entry(place, fault) => Some(at_entry(entry_reason(fault), place)),
        EntriesFault::Acl(fault) => acl_refusal(fault),
    }
}

// Returns the fault of an attribute by its numbers for C, or `None` if memory ran out.
fn attribute_refusal(fault: AttributeFault) -> Option<Refusal>
    ensures { result ≡ attribute_refusal fault }
{
    match fault {
        AttributeFault::Size => Some(at_entry(Reason::Size, 0)),
        AttributeFault::Version => Some(at_entry(Reason::Version, 0)),
        AttributeFault::Entry(place, fault) => Some(at_entry(entry_reason(fault), place)),
        AttributeFault::Order(place) => Some(at_entry(Reason::Order, place)),
        AttributeFault::Acl(fault) => acl_refusal(fault),
    }
}

fn acl_refusal(fault: AclFault) -> Option<Refusal>
    ensures { result ≡ acl_refusal fault }
{
    match fault {
        AclFault::Multi(place) => Some(at_entry(Reason::Multi, place)),
        AclFault::Duplicate(place) => Some(at_entry(Reason::Duplicate, place)),
        AclFault::Miss(tag) => Some(Refusal::missing(Part::Access, tag)),
        AclFault::Memory => None,
    }
}

pub(crate) fn at_entry(reason: Reason, place: usize) -> Refusal
    ensures { result ≡ at_entry (number_of_reason reason) place }
{
    Refusal::at(reason, place as u64)
}

pub(crate) fn entry_reason(fault: EntryFault) -> Reason
    ensures { number_of_reason result ≡ entry_reason fault }
{
    match fault {
        EntryFault::Tag => Reason::Tag,
        EntryFault::Id => Reason::Id,
        EntryFault::Perm => Reason::Permission,
    }
}
