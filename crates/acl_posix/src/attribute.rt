//! The bytes of the extended attributes that hold ACLs on Linux.
ghost use Rattle.std.specs.Prelude.{◌≡◌, ◌≤◌, ◌⊎◌, None, Option, Some, drop, length, unwrap_or, IfErr, IfOk, IfSome, IsNone};
ghost use Rattle.acl_posix.specs.declared.attribute_fault.AttributeFault.TheVariants.{Acl};
ghost use Rattle.acl_posix.specs.declared.fault.AclFault.TheVariants.{Memory};
ghost use Rattle.acl_posix.specs.Entries.{Entries, pairs};
ghost use Rattle.acl_posix.specs.RawEntries.{last_tag_number, no_tag_number};
ghost use Rattle.acl_posix.specs.Attribute.{attribute_raws, coded_number, entry_size, frame_fault, IsAttributeOf, IsFaultOfAttribute, IsFirstFall, NeverFalls, stored_raw, stored_raws};

use crate::acl::PosixAcl;
use crate::attribute_fault::AttributeFault;
use crate::entry::Entry;
use crate::raw_entry::{NO_TAG, RawEntry};
use crate::raw_list::read_entries;
use byteorder::{ByteOrder, LittleEndian};
use std::alloc::{AllocError, Global};

/// The version of the attributes.
pub const VERSION: u32 = 2;

/// The bytes of the version.
pub const VERSION_SIZE: usize = 4;

/// The bytes of an entry.
pub const ENTRY_SIZE: usize = 8;

impl PosixAcl {
    /// Returns the ACL that the bytes hold as the value of `system.posix_acl_access` or `system.posix_acl_default`, the
    /// extended attributes of Linux, or `None` if they have no entries, which means that the file has no such ACL.
    /// Fails with `Size`, `Version` or `Entry` if the bytes do not spell entries; otherwise with `Order` and a place if
    /// the tag types are not in canonical order, as the kernel requires; and otherwise with `Acl` and the fault that
    /// `from_entries` returns, or that memory ran out. It takes time in n log n, and linear time if the ids rise.
    ///
    /// ```rust
    /// let bytes = b"\x02\0\0\0\x01\0\x06\0\xff\xff\xff\xff\x04\0\x04\0\xff\xff\xff\xff\x20\0\0\0\xff\xff\xff\xff";
    /// let acl = PosixAcl::from_attribute(alloc, bytes)?;
    /// assert!(rt; acl == Some(PosixAcl::of_mode(alloc, Mode { bits: 0o640 })?));
    /// ```
    pub fn from_attribute(alloc: Global, bytes: &[u8]) -> Result<Option<PosixAcl>, AttributeFault>
        ensures read { IfOk result (IsAttributeOf bytes.now) }
        ensures fault { IfErr result (IsFaultOfAttribute bytes.now) }
        ensures accepts { (acl : Option Entries) → IsAttributeOf bytes.now acl
            → IfErr result (λ fault. fault ≡ Acl Memory) }
    {
        if let Some(fault) = frame_fault(bytes) {
            return Err(fault);
        }
        let raws = stored_raws(alloc, &bytes[VERSION_SIZE..])?;
        if raws.is_empty() {
            return Ok(None);
        }
        let entries = read_entries(alloc, &raws)?;
        if let Some(place) = first_fall(&entries) {
            return Err(AttributeFault::Order(place));
        }
        Ok(Some(PosixAcl::from_entries(alloc, entries)?))
    }
}

/// Returns what is wrong with the size or the version of an attribute.
pub(crate) fn frame_fault(bytes: &[u8]) -> Option<AttributeFault>
    ensures { result ≡ frame_fault bytes.now }
{
    if bytes.len() < VERSION_SIZE {
        return Some(AttributeFault::Size);
    }
    if LittleEndian::read_u32(bytes) != VERSION {
        return Some(AttributeFault::Version);
    }
    if (bytes.len() - VERSION_SIZE) % ENTRY_SIZE != 0 {
        return Some(AttributeFault::Size);
    }
    None
}

/// Returns the numbers of the entries that lie one after the other in some bytes.
pub(crate) fn stored_raws(alloc: Global, bytes: &[u8]) -> Result<Vec<RawEntry>, AllocError>
    ensures { IfOk result (λ raws. raws.items ≡ stored_raws bytes.now) }
{
    let (stored, _) = bytes.as_chunks::<8>();
    let mut raws = Vec::with_capacity(alloc, stored.len())?;
    for one in stored {
        raws.push(stored_raw(one))?;
    }
    Ok(raws)
}

/// Returns the numbers of the entry in the first eight bytes.
#[tactic(auto, unfolding(crate::specs::Attribute::stored_raw))]
pub fn stored_raw(bytes: &[u8]) -> RawEntry
    requires { entry_size ≤ length bytes.now }
    ensures numbers { result ≡ stored_raw bytes.now }
    ensures known { result.tag ≤ last_tag_number }
{
    RawEntry {
        tag: coded_number(LittleEndian::read_u16(bytes)).unwrap_or(NO_TAG),
        id: LittleEndian::read_u32(&bytes[4..]),
        perm: u32::from(LittleEndian::read_u16(&bytes[2..])),
    }
}

/// Returns the number of the tag type with a code, if there is one.
fn coded_number(code: u16) -> Option<u32>
    ensures number { unwrap_or result no_tag_number ≡ coded_number code }
    ensures known { IfSome result (λ number. number ≤ last_tag_number) }
{
    match code {
        0x01 => Some(1),
        0x02 => Some(2),
        0x04 => Some(3),
        0x08 => Some(4),
        0x10 => Some(5),
        0x20 => Some(6),
        _ => None,
    }
}

/// Returns the place of the first entry whose tag type is before that of the entry before it, in canonical order.
pub fn first_fall(entries: &[Entry]) -> Option<usize>
    ensures some { IfSome result (IsFirstFall (pairs entries.now)) }
    ensures none { IsNone result → NeverFalls (pairs entries.now) }
{
    for place in 1..entries.len() {
        if entries[place].tag.rank() < entries[place - 1].tag.rank() {
            return Some(place);
        }
    }
    None
}
