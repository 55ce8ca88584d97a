//! Writes ACLs as the bytes of extended attributes.
ghost use Rattle.std.specs.Prelude.{◌≡◌, ◌++◌, IfOk, OnOk};
ghost use Rattle.std.specs.List.{flat_map};
ghost use Rattle.byteorder.specs.Endian.{little_bytes};
ghost use Rattle.acl_posix.specs.Attribute.{attribute_bytes, attribute_version, entry_bytes, tag_code, version_size};
ghost use Rattle.acl_posix.specs.Entries.{pair_of, pairs};
ghost use Rattle.acl_posix.specs.Tag.{tag_of};

use crate::acl::PosixAcl;
use crate::attribute::VERSION;
use crate::entry::Entry;
use crate::raw_entry::RawEntry;
use crate::tag::Tag;
use byteorder::{ByteOrder, LittleEndian};
use std::alloc::{AllocError, Global};

impl PosixAcl {
    /// Returns the value of `system.posix_acl_access` or `system.posix_acl_default` that holds this ACL, with the
    /// entries in canonical order. Fails only if memory runs out. Linear time.
    ///
    /// ```rust
    /// let acl = PosixAcl::of_mode(alloc, Mode { bits: 0o640 })?;
    /// let bytes = acl.to_attribute(alloc)?;
    /// assert!(rt; PosixAcl::from_attribute(alloc, &bytes)? == Some(acl));
    /// ```
    pub fn to_attribute(&self, alloc: Global) -> Result<Vec<u8>, AllocError>
        ensures { IfOk result (λ bytes. bytes.items ≡ attribute_bytes self.now) }
    {
        let mut bytes = Vec::new(alloc);
        bytes.extend_from_slice(&version_bytes())?;
        put_entries(&mut bytes, self.entries())?;
        Ok(bytes)
    }
}

pub fn version_bytes() -> [u8; 4]
    ensures { result ≡ little_bytes version_size attribute_version }
{
    let mut bytes = [0; 4];
    LittleEndian::write_u32(&mut bytes, VERSION);
    bytes
}

fn put_entries(bytes: &mut Vec<u8>, entries: &[Entry]) -> Result<(), AllocError>
    ensures { OnOk result (bytes.new.items
        ≡ bytes.old.items ++ flat_map entry_bytes (pairs entries.now)) }
{
    for entry in entries {
        bytes.extend_from_slice(&entry_bytes(*entry))?;
    }
    Ok(())
}

#[tactic(auto, unfolding(crate::specs::Attribute::entry_bytes))]
pub fn entry_bytes(entry: Entry) -> [u8; 8]
    ensures { result ≡ entry_bytes (pair_of entry) }
{
    let raw = RawEntry::from_entry(entry);
    let mut bytes = [0; 8];
    LittleEndian::write_u16(&mut bytes, tag_code(entry.tag));
    LittleEndian::write_u16(&mut bytes[2..], u16::from(entry.perm.bits));
    LittleEndian::write_u32(&mut bytes[4..], raw.id);
    bytes
}

fn tag_code(tag: Tag) -> u16
    ensures { result ≡ tag_code (tag_of tag) }
{
    match tag {
        Tag::UserObj => 0x01,
        Tag::User(_) => 0x02,
        Tag::GroupObj => 0x04,
        Tag::Group(_) => 0x08,
        Tag::Mask => 0x10,
        Tag::Other => 0x20,
    }
}
