//! The ACL of entries of a text.
ghost use Rattle.std.specs.Prelude.{◌≡◌, ◌⊎◌, ◌<◌, IfErr, IfOk, get_or, length, map};
ghost use Rattle.acl_posix.specs.Entries.{pairs};
ghost use Rattle.acl_posix.specs.Grammar.{IsAclOf};
ghost use Rattle.acl_forms.specs.PosixRules.{is_part, of_part, offset_at, placed_pairs, IsPlacedFault};
ghost use Rattle.acl_forms.specs.ReadFaults.{no_memory_left};
ghost use Rattle.acl_forms.specs.internal.PosixReading.{placed};

use crate::fault::{ReadFault, ReadReason};
use crate::posix_text::entry::TextEntry;
use acl_nfs4::Reason;
use acl_posix::{AclFault, Entry, Part, PosixAcl};
use std::alloc::{AllocError, Global};

/// Returns the entries that belong to a part.
pub(crate) fn of_part(
    alloc: Global,
    read: &[TextEntry],
    part: Part,
) -> Result<Vec<TextEntry>, AllocError>
    ensures { IfOk result
        (λ members. map placed members.items ≡ of_part part (map placed read.now)) }
{
    let mut members = Vec::new(alloc);
    for one in read {
        if is_part(part, one.part) {
            members.push(*one)?;
        }
    }
    Ok(members)
}

fn is_part(part: Part, other: Part) -> bool
    ensures { result ≡ is_part part other }
{
    match (part, other) {
        (Part::Access, Part::Access) | (Part::Default, Part::Default) => true,
        (Part::Access, Part::Default) | (Part::Default, Part::Access) => false,
    }
}

/// Returns the ACL of entries of a text of this length, or what is wrong with their list.
pub(crate) fn acl_of(alloc: Global, read: &[TextEntry], len: usize) -> Result<PosixAcl, ReadFault>
    ensures acl { IfOk result (IsAclOf (placed_pairs (map placed read.now))) }
    ensures fault { IfErr result (λ fault. (fault ≡ no_memory_left)
        ⊎ IsPlacedFault (map placed read.now) len fault) }
{
    let entries = entries_of(alloc.clone()?, read)?;
    match PosixAcl::from_entries(alloc, entries) {
        Ok(acl) => Ok(acl),
        Err(AclFault::Multi(place)) => Err(at_entry(read, place, ReadReason::Multi)),
        Err(AclFault::Duplicate(place)) => Err(at_entry(read, place, ReadReason::Duplicate)),
        Err(AclFault::Miss(tag)) => Err(ReadFault::new(len, ReadReason::Miss(tag))),
        Err(AclFault::Memory) => Err(ReadFault::new(0, ReadReason::List(Reason::Memory))),
    }
}

// Returns the tags and the permissions of entries.
fn entries_of(alloc: Global, read: &[TextEntry]) -> Result<Vec<Entry>, AllocError>
    ensures { IfOk result (λ entries. pairs entries.items ≡ placed_pairs (map placed read.now)) }
{
    let mut entries = Vec::with_capacity(alloc, read.len())?;
    for one in read {
        entries.push(one.entry)?;
    }
    Ok(entries)
}

// Returns a fault at the first byte of an entry.
fn at_entry(read: &[TextEntry], place: usize, reason: ReadReason) -> ReadFault
    requires { place < length read.now }
    ensures { result ≡ record { offset = offset_at (map placed read.now) place; reason = reason } }
{
    ReadFault::new(read[place].at, reason)
}
