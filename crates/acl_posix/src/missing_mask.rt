//! The MASK that a list of entries gets if it lacks one.
ghost use Rattle.std.specs.Prelude.{◌≡◌, IfErr, IfOk, OnOk};
ghost use Rattle.std.specs.List.{list_any};
ghost use Rattle.acl_posix.specs.declared.fault.AclFault.TheVariants.{Memory};
ghost use Rattle.acl_posix.specs.Entries.{as_set, pairs};
ghost use Rattle.acl_posix.specs.MissingMask.{is_mask, lacks_mask, with_missing_mask};
ghost use Rattle.acl_posix.specs.Tag.{tag_of};
ghost use Rattle.acl_posix.specs.Valid.{IsFaultOf, IsValidList};

use crate::acl::PosixAcl;
use crate::edits::class_union;
use crate::entry::Entry;
use crate::fault::AclFault;
use crate::tag::Tag;
use crate::validity::any_entry_named;
use std::alloc::{AllocError, Global};

impl PosixAcl {
    /// Returns what `from_entries` returns for the entries with the MASK that they lack. If there is a USER or GROUP
    /// entry and no MASK, the MASK that is added has the union of the permissions of all USER, GROUP_OBJ and GROUP
    /// entries, as `setfacl -m` adds it. Fails as `from_entries` does, but never with `Miss` of MASK.
    ///
    /// ```rust
    /// let mut entries = Vec::new(alloc);
    /// let (bob, perm) = (Tag::User(Id { value: 7 }), Perm::READ);
    /// for tag in [Tag::UserObj, bob, Tag::GroupObj, Tag::Other] {
    ///     entries.push(Entry { tag, perm })?;
    /// }
    /// let acl = PosixAcl::from_entries_with_mask(alloc, entries)?;
    /// assert!(rt; acl.get(Tag::Mask) == Some(Perm::READ));
    /// ```
    pub fn from_entries_with_mask(alloc: Global, entries: Vec<Entry>) -> Result<PosixAcl, AclFault>
        ensures valid { OnOk result (IsValidList (with_missing_mask (pairs entries.items))) }
        ensures entries { IfOk result
            (λ acl. acl ≡ as_set (with_missing_mask (pairs entries.items))) }
        ensures fault { IfErr result (IsFaultOf (with_missing_mask (pairs entries.items))) }
        ensures accepts { IsValidList (with_missing_mask (pairs entries.items))
            → IfErr result (λ fault. fault ≡ Memory) }
    {
        let entries = with_missing_mask(entries)?;
        PosixAcl::from_entries(alloc, entries)
    }
}

fn with_missing_mask(entries: Vec<Entry>) -> Result<Vec<Entry>, AllocError>
    ensures { IfOk result
        (λ masked. pairs masked.items ≡ with_missing_mask (pairs entries.items)) }
{
    let mut entries = entries;
    if lacks_mask(&entries) {
        let perm = class_union(&entries);
        entries.push(Entry {
            tag: Tag::Mask,
            perm,
        })?;
    }
    Ok(entries)
}

/// Returns whether there is a USER or GROUP entry, and no MASK.
fn lacks_mask(entries: &[Entry]) -> bool
    ensures { result ≡ lacks_mask (pairs entries.now) }
{
    any_entry_named(entries) && !any_mask(entries)
}

fn any_mask(entries: &[Entry]) -> bool
    ensures { result ≡ list_any (λ entry. is_mask (tag_of entry.tag)) entries.now }
{
    entries.iter().any(|entry| is_mask(entry.tag))
}

fn is_mask(tag: Tag) -> bool
    ensures { result ≡ is_mask (tag_of tag) }
{
    matches!(tag, Tag::Mask)
}
