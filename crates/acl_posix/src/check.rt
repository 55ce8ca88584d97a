//! The access check (acl(5), "ACCESS CHECK ALGORITHM").
ghost use Rattle.std.specs.Prelude.{◌≡◌, map};
ghost use Rattle.acl_posix.specs.Tag.{group as group_tag, tag_of};
ghost use Rattle.acl_posix.specs.Check.{any_contains, any_matches, class_contains, entry_contains, grants};
ghost use Rattle.acl_posix.specs.internal.GroupSearch.{group_contains};

use crate::entry_set::EntrySet;
use crate::group_number::GroupNumber;
use crate::id::Id;
use crate::sorted::SortedEntries;
use crate::tag::Tag;
use acl_perm::Perm;

/// The access check of a set of entries.
pub(crate) trait AccessCheck: EntrySet {
    /// Returns whether a user who is in these groups is granted all of the request on an object with this owner and
    /// group.
    #[tactic(auto, unfolding(crate::specs::Check::grants))]
    fn grants<G: GroupNumber>(
        &self,
        owner: Id,
        group: Id,
        user: Id,
        groups: &[G],
        request: Perm,
    ) -> bool
        ensures { result ≡ grants (Self.entries self.now)
            (record { user = owner.value; group = group.value })
            (record { user = user.value; groups = map G.number groups.now })
            request.bits }
    {
        if user.value == owner.value {
            self.entry_contains(Tag::UserObj, request)
        } else if let Some(perm) = self.get(Tag::User(user)) {
            perm.contains(request) && self.entry_contains(Tag::Mask, request)
        } else if self.any_matches(group, groups) {
            self.class_contains(group, groups, request)
        } else {
            self.entry_contains(Tag::Other, request)
        }
    }

    /// Returns whether some entry matches by a group of the requester: whether some such entry contains the empty
    /// request.
    #[tactic(auto, using(crate::proofs::sorted::Groups::contains_empty))]
    fn any_matches<G: GroupNumber>(&self, owning_group: Id, groups: &[G]) -> bool
        ensures { result ≡ any_matches (Self.entries self.now) owning_group.value
            (map G.number groups.now) }
    {
        self.any_contains(owning_group, groups, Perm::NONE)
    }

    /// Returns whether the entries that match by a group of the requester grant the request: with a MASK, if MASK and
    /// one of them contain it; without a MASK, if the entry of the owning group contains it.
    fn class_contains<G: GroupNumber>(&self, owning_group: Id, groups: &[G], request: Perm) -> bool
        ensures { result ≡ class_contains (Self.entries self.now) owning_group.value
            (map G.number groups.now) request.bits }
    {
        match self.get(Tag::Mask) {
            Some(mask) => mask.contains(request)
                && self.any_contains(owning_group, groups, request),
            None => self.entry_contains(Tag::GroupObj, request),
        }
    }

    /// Returns whether one matching entry contains all that is requested. It searches for each group of the requester.
    fn any_contains<G: GroupNumber>(&self, owning_group: Id, groups: &[G], request: Perm) -> bool
        ensures { result ≡ any_contains (Self.entries self.now) owning_group.value
            (map G.number groups.now) request.bits }
    {
        groups.iter().any(|group| self.group_contains(owning_group, group.number(), request))
    }

    /// Returns whether an entry that matches by this group contains all that is requested.
    fn group_contains(&self, owning_group: Id, group: u32, request: Perm) -> bool
        ensures { result ≡ group_contains (Self.entries self.now) owning_group.value request.bits
            group }
    {
        (group == owning_group.value && self.entry_contains(Tag::GroupObj, request))
            || self.group_entry_contains(group, request)
    }

    /// Returns whether the entry of the group contains all that is requested. Without such an entry it returns `false`.
    fn group_entry_contains(&self, group: u32, request: Perm) -> bool
        ensures { result ≡ entry_contains (Self.entries self.now) (group_tag group) request.bits }
    {
        match self.get_group(group) {
            Some(perm) => perm.contains(request),
            None => false,
        }
    }

    /// Returns whether the entry of the tag contains all that is requested. Without such an entry it returns `false`.
    fn entry_contains(&self, tag: Tag, request: Perm) -> bool
        ensures { result ≡ entry_contains (Self.entries self.now) (tag_of tag) request.bits }
    {
        match self.get(tag) {
            Some(perm) => perm.contains(request),
            None => false,
        }
    }
}

impl AccessCheck for SortedEntries {}
