//! Entries as three plain numbers, as programs in other languages pass them.
ghost use Rattle.std.specs.Prelude.{◌≡◌, ◌<◌, ◌≤◌, ◌↔◌, None, Some, IfErr, IfOk, IfSome, IsSome, OnErr, OnOk};
ghost use Rattle.acl_perm.specs.Bits.{all_permissions};
ghost use Rattle.acl_posix.specs.declared.raw_entry.EntryFault.TheVariants as wrong;
ghost use Rattle.acl_posix.specs.Entries.{pair_of};
ghost use Rattle.acl_posix.specs.Id.{greatest_id, IsId};
ghost use Rattle.acl_posix.specs.Tag.{tag_of};
ghost use Rattle.acl_posix.specs.RawEntries.{entry_fault, raw_of, raw_pair, raw_tag, tag_fault};

use crate::entry::Entry;
use crate::fault::AclFault;
use crate::id::Id;
use crate::tag::Tag;
use acl_perm::Perm;
use thiserror::Error;

/// An entry as three plain numbers, which may be those of no entry.
#[repr(C)]
#[derive(Clone, Copy, Debug, PartialEq, Eq)]
pub struct RawEntry {
    /// The number of the tag type: 1 for USER_OBJ, 2 for USER, 3 for GROUP_OBJ, 4 for GROUP, 5 for MASK, 6 for OTHER.
    pub tag: u32,
    /// The id of a USER or GROUP entry. It means nothing in any other entry.
    pub id: u32,
    /// The permissions: the sum of read 4, write 2 and execute 1.
    pub perm: u32,
}

/// Why three numbers are not those of an entry.
#[derive(Clone, Copy, Debug, PartialEq, Eq, Error)]
pub enum EntryFault {
    /// The tag is none of the numbers 1 to 6.
    #[error("Tag")]
    Tag,
    /// The id of a USER or GROUP entry is 4294967295.
    #[error("Id")]
    Id,
    /// The permissions are greater than 7.
    #[error("Perm")]
    Perm,
}

/// Why a list of raw entries is not a valid ACL. Places count from 0.
#[derive(Clone, Copy, Debug, PartialEq, Eq, Error)]
pub enum EntriesFault {
    /// The numbers of the entry at this place are not those of an entry.
    #[error("{1} at entry {0}")]
    Entry(usize, EntryFault),
    /// The entries are not a valid ACL, or memory ran out.
    #[error("{0}")]
    Acl(AclFault),
}

/// The number in place of that of a tag type that means none.
pub(crate) const NO_TAG: u32 = 0;

/// The number in place of an id that means none.
pub const UNDEFINED_ID: u32 = u32::MAX;

impl RawEntry {
    /// Returns the numbers of an entry, with the id 4294967295 if the tag has no qualifier. Constant time.
    pub fn from_entry(entry: Entry) -> RawEntry
        ensures { result ≡ raw_of (pair_of entry) }
    {
        let id = match entry.tag {
            Tag::User(id) | Tag::Group(id) => id.value,
            Tag::UserObj | Tag::GroupObj | Tag::Mask | Tag::Other => UNDEFINED_ID,
        };
        RawEntry {
            tag: u32::from(entry.tag.rank()) + 1,
            id,
            perm: u32::from(entry.perm.bits),
        }
    }

    /// Returns the entry of these numbers, or what is wrong with them: first the tag, then the id, then the
    /// permissions. Fails with `Tag` if the tag is none of 1 to 6, otherwise with `Id` if the entry is of USER or GROUP
    /// and the id is 4294967295, and otherwise with `Perm` if the permissions are greater than 7. Constant time.
    pub fn entry(self) -> Result<Entry, EntryFault>
        ensures entry { IfOk result (λ entry. pair_of entry ≡ raw_pair self) }
        ensures valid { OnOk result (entry_fault self ≡ None) }
        ensures fault { IfErr result (λ fault. entry_fault self ≡ Some fault) }
    {
        let tag = self.read_tag()?;
        match read_perm(self.perm) {
            Some(perm) => Ok(Entry { tag, perm }),
            None => Err(EntryFault::Perm),
        }
    }

    fn read_tag(self) -> Result<Tag, EntryFault>
        ensures tag { IfOk result (λ tag. tag_of tag ≡ raw_tag self) }
        ensures valid { OnOk result (tag_fault self ≡ None) }
        ensures fault { IfErr result (λ fault. tag_fault self ≡ Some fault) }
    {
        match self.tag {
            1 => Ok(Tag::UserObj),
            2 => Ok(Tag::User(read_id(self.id)?)),
            3 => Ok(Tag::GroupObj),
            4 => Ok(Tag::Group(read_id(self.id)?)),
            5 => Ok(Tag::Mask),
            6 => Ok(Tag::Other),
            _ => Err(EntryFault::Tag),
        }
    }
}

fn read_id(number: u32) -> Result<Id, EntryFault>
    ensures value { IfOk result (λ id. id.value ≡ number) }
    ensures valid { OnOk result (IsId number) }
    ensures fault { IfErr result (λ fault. fault ≡ wrong.Id) }
    ensures none { OnErr result (greatest_id < number) }
{
    match Id::new(number) {
        Some(id) => Ok(id),
        None => Err(EntryFault::Id),
    }
}

fn read_perm(number: u32) -> Option<Perm>
    ensures some { IfSome result (λ perm. perm.bits ≡ number) }
    ensures none { IsSome result ↔ (number ≤ all_permissions) }
{
    Perm::new(u8::try_from(number).ok()?)
}
