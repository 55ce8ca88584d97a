//! Reads a descriptor at a place of a value.
ghost use Rattle.std.specs.Prelude.{◌≡◌, ◌+◌, ◌<◌, ◌≤◌, IsNone, length, option_map};
ghost use Rattle.acl_nt.specs.AclAt.{ace_places, nt_aces_at};
ghost use Rattle.acl_nt.specs.Conditions.{ReadsUnder, first_unmet};
ghost use Rattle.acl_nt.specs.DescriptorAt.{descriptor_at, descriptor_conditions, header_conditions, is_field, left_out_at, named_acl_conditions, named_sid, named_sid_conditions, offset_conditions, part_at, parts_conditions};
ghost use Rattle.acl_nt.specs.Numbers.{dword_at};
ghost use Rattle.acl_nt.specs.Sid.{sid};
ghost use Rattle.acl_nt.specs.internal.Parts.{aces, parts, parts_of};

use crate::acl_reader::{Aces, read_acl};
use crate::descriptor::{Dacl, NtDescriptor, NtPart};
use crate::fault::{NtFault, NtReason};
use crate::numbers::{half, word};
use crate::role::Role;
use crate::sid::Sid;
use crate::sid_reader::read_sid;
use std::alloc::Global;

/// Returns the descriptor at a place.
pub(crate) fn read_descriptor(
    alloc: Global,
    role: Role,
    bytes: &[u8],
    base: usize,
) -> Result<NtPart, NtFault>
    requires small { base < 1000 }
    ensures { ReadsUnder parts result (descriptor_conditions role bytes.now base)
        (descriptor_at role bytes.now base, left_out_at role bytes.now (dword_at bytes.now (base + 16))) }
{
    match header_fault(bytes, base) {
        Some(fault) => Err(fault),
        None => read_parts(alloc, role, bytes, base),
    }
}

// Returns the descriptor whose header is at a place.
fn read_parts(alloc: Global, role: Role, bytes: &[u8], base: usize) -> Result<NtPart, NtFault>
    requires small { base < 1000 }
    requires whole { base + 20 ≤ length bytes.now }
    ensures { ReadsUnder parts result (parts_conditions role bytes.now base)
        (descriptor_at role bytes.now base, left_out_at role bytes.now (dword_at bytes.now (base + 16))) }
{
    let owner = named_sid(bytes, word(bytes, base + 4))?;
    let group = named_sid(bytes, word(bytes, base + 8))?;
    let sacl = named_acl(
        alloc.clone()?,
        Role::Auditing,
        bytes,
        word(bytes, base + 12),
    )?;
    let dacl = named_acl(alloc.clone()?, role, bytes, word(bytes, base + 16))?;
    Ok(joined(alloc, half(bytes, base + 2), owner, group, sacl, dacl))
}

// Returns the descriptor of these parts.
fn joined(
    alloc: Global,
    control: u16,
    owner: Option<Sid>,
    group: Option<Sid>,
    sacl: Option<Aces>,
    dacl: Option<Aces>,
) -> NtPart
    ensures { parts result ≡ parts_of control (option_map sid owner) (option_map sid group)
        (option_map aces sacl) (option_map aces dacl) }
{
    let (dacl, left_out) = match dacl {
        None => (Dacl::Null, Vec::new(alloc)),
        Some(aces) => (Dacl::List(aces.deciding), aces.others),
    };
    let sacl = match sacl {
        None => None,
        Some(aces) => Some(aces.others),
    };
    NtPart {
        descriptor: NtDescriptor {
            control,
            owner,
            group,
            dacl,
            sacl,
        },
        left_out,
    }
}

// Returns the SID at an offset, if the offset names one.
#[tactic(auto, unfolding(crate::specs::DescriptorAt::named_sid_conditions))]
fn named_sid(bytes: &[u8], offset: u32) -> Result<Option<Sid>, NtFault>
    ensures { ReadsUnder (λ s. option_map sid s) result (named_sid_conditions bytes.now offset)
        (named_sid bytes.now offset) }
{
    if offset == 0 {
        return Ok(None);
    }
    Ok(Some(read_sid(bytes, offset as usize, bytes.len())?))
}

// Returns the ACEs of the ACL at an offset, if the offset names one.
#[tactic(auto, unfolding(crate::specs::DescriptorAt::named_acl_conditions))]
fn named_acl(alloc: Global, role: Role, bytes: &[u8], offset: u32) -> Result<Option<Aces>, NtFault>
    ensures { ReadsUnder (λ a. option_map aces a) result (named_acl_conditions role bytes.now offset)
        (part_at (λ at. nt_aces_at role bytes.now (ace_places bytes.now at)) offset) }
{
    if offset == 0 {
        return Ok(None);
    }
    Ok(Some(read_acl(alloc, role, bytes, offset as usize)?))
}

// Returns what is wrong with the header of a descriptor.
#[tactic(auto, unfolding(crate::specs::DescriptorAt::header_conditions))]
fn header_fault(bytes: &[u8], base: usize) -> Option<NtFault>
    requires small { base < 1000 }
    ensures exact { result ≡ first_unmet (header_conditions bytes.now base) }
    ensures whole { IsNone result → base + 20 ≤ length bytes.now }
{
    if bytes.len() < base + 20 {
        return Some(NtFault::new(base, NtReason::Truncated));
    }
    if bytes[base] != 1 {
        return Some(NtFault::new(base, NtReason::Revision));
    }
    let control = half(bytes, base + 2);
    if control & 0x8000 == 0 {
        return Some(NtFault::new(base + 2, NtReason::NotSelfRelative));
    }
    if control & 4 == 0 {
        return Some(NtFault::new(base + 2, NtReason::NoDacl));
    }
    offsets_fault(bytes, base, control & 0x10 != 0)
}

// Returns what is wrong with the offsets of a header.
fn offsets_fault(bytes: &[u8], base: usize, has_sacl: bool) -> Option<NtFault>
    requires whole { base + 20 ≤ length bytes.now }
    requires small { base < 1000 }
    ensures { result ≡ first_unmet (offset_conditions bytes.now base has_sacl) }
{
    if !may_be_named(bytes, base, 4, true) {
        return Some(NtFault::new(base + 4, NtReason::Offset));
    }
    if !may_be_named(bytes, base, 8, true) {
        return Some(NtFault::new(base + 8, NtReason::Offset));
    }
    if !may_be_named(bytes, base, 12, has_sacl) {
        return Some(NtFault::new(base + 12, NtReason::Offset));
    }
    if !may_be_named(bytes, base, 16, true) {
        return Some(NtFault::new(base + 16, NtReason::Offset));
    }
    None
}

// Returns whether a field of the header is 0 or, if it may name a part, an offset.
fn may_be_named(bytes: &[u8], base: usize, field: usize, may_name: bool) -> bool
    requires whole { base + 20 ≤ length bytes.now }
    requires small { base < 1000 }
    requires inside { field ≤ 16 }
    ensures { result ≡ is_field bytes.now base field may_name }
{
    let offset = word(bytes, base + field) as usize;
    offset == 0 || (may_name && (offset >= base + 20 && (offset % 4 == 0 && offset <= bytes.len())))
}
