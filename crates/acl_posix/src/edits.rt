//! Changes of sorted entries: the mode, the mask, and one entry.
ghost use Rattle.std.specs.Prelude.{◌≡◌, IsOk, IsSome, OnErr, OnOk};
ghost use Rattle.std.specs.FinMap as set;
ghost use Rattle.acl_posix.specs.Tag.{mask, tag_of};
ghost use Rattle.acl_posix.specs.Entries.{pairs};
ghost use Rattle.acl_posix.specs.Valid.{IsValid};
ghost use Rattle.acl_posix.specs.Mode.{chmoded};
ghost use Rattle.acl_posix.specs.Mask.{class_union, with_mask};

use crate::entry::Entry;
use crate::entry_set::EntrySet;
use crate::sorted::SortedEntries;
use crate::tag::Tag;
use acl_perm::{Mode, Perm};
use std::alloc::AllocError;

impl SortedEntries {
    /// Sets the three entries of the mode, and no others.
    pub(crate) fn set_mode(&mut self, mode: Mode)
        requires { IsValid self.old }
        ensures set { self.new ≡ chmoded self.old mode.bits }
        ensures valid { IsValid self.new }
    {
        let class = self.group_class();
        self.set(Tag::UserObj, mode.owner());
        self.set(class, mode.group());
        self.set(Tag::Other, mode.others());
    }

    /// Sets the mask to the union of the permissions that it limits, and adds the mask if it is absent.
    pub(crate) fn set_mask(&mut self) -> Result<(), AllocError>
        ensures ok { OnOk result (self.new ≡ with_mask self.old) }
        ensures err { OnErr result (self.new ≡ self.old) }
        ensures no_memory { IsSome (set.get self.old mask) → IsOk result }
        ensures valid { IsValid self.old → IsValid self.new }
    {
        let perm = class_union(self.as_slice());
        self.insert(Tag::Mask, perm)
    }

    /// Sets the permissions of a tag, and adds an entry if it has none. Only adding an entry takes memory.
    pub(crate) fn insert(&mut self, tag: Tag, perm: Perm) -> Result<(), AllocError>
        ensures ok { OnOk result (self.new ≡ set.insert self.old (tag_of tag) perm.bits) }
        ensures err { OnErr result (self.new ≡ self.old) }
        ensures no_memory { IsSome (set.get self.old (tag_of tag)) → IsOk result }
    {
        match self.place_of(tag) {
            Ok(_) => {
                self.set(tag, perm);
                Ok(())
            }
            Err(place) => Ok(self.items.insert(place, Entry { tag, perm })?),
        }
    }

    /// Removes the entry of a tag, if it has one.
    pub(crate) fn remove(&mut self, tag: Tag)
        ensures { self.new ≡ set.remove self.old (tag_of tag) }
    {
        self.items.retain(|entry| entry.tag != tag);
    }

    /// Sets the permissions of a tag that has an entry.
    fn set(&mut self, tag: Tag, perm: Perm)
        requires { IsSome (set.get self.old (tag_of tag)) }
        ensures { self.new ≡ set.insert self.old (tag_of tag) perm.bits }
    {
        match self.place_of(tag) {
            Ok(place) => self.items[place] = Entry { tag, perm },
            Err(_) => {}
        }
    }
}

/// Returns the union of the permissions of all entries that the mask limits.
#[tactic(auto, using(crate::proofs::sorted::ModeAndMask::union_more, crate::proofs::sorted::ModeAndMask::union_done))]
pub(crate) fn class_union(entries: &[Entry]) -> Perm
    ensures { result.bits ≡ class_union (pairs entries.now) }
{
    let mut union = Perm::NONE;
    for entry in entries {
        if entry.tag.is_masked() {
            union = union.union(entry.perm);
        }
    }
    union
}
