//! Sets of entries, however they are kept.
ghost use Rattle.std.specs.Prelude.{◌≡◌, ◌<◌, get_or, length, option_map, IfSome};
ghost use Rattle.std.specs.FinMap as set;
ghost use Rattle.acl_posix.specs.Entries.{Entries, pair_of};
ghost use Rattle.acl_posix.specs.Tag.{Tag as AnyTag, group, is_named, qualifier as qualifier_of, rank as rank_of, tag_of};
ghost use Rattle.std.specs.List.{list_any};
ghost use Rattle.acl_posix.specs.Mode.{group_class, mode_of, perm_at};
ghost use Rattle.acl_posix.specs.Valid.{missing};
ghost use Rattle.acl_posix.specs.View.{IsFoundAt};
ghost use Rattle.acl_posix.specs.internal.Search.{order_of};

use crate::entry::Entry;
use crate::tag::Tag;
use acl_perm::{Mode, Perm};
use std::cmp::Ordering;

/// The rank of GROUP in the canonical order.
const GROUP_RANK: u8 = 3;

/// A set of entries, which are read in canonical order or by their tags.
pub(crate) trait EntrySet {
    // The permissions of each tag.
    ghost entries: { Self → Entries };

    fn count(&self) -> usize
        ensures { result ≡ length (set.entries (entries self.now)) };

    /// Returns the entry at a place, in canonical order.
    fn entry_at(&self, place: usize) -> Entry
        requires { place < length (set.entries (entries self.now)) }
        ensures { get_or (set.entries (entries self.now)) place (pair_of result) ≡ pair_of result };

    /// Returns the permissions of a tag, if it has an entry.
    fn get(&self, tag: Tag) -> Option<Perm>
        ensures { option_map (λ perm. perm.bits) result ≡ set.get (entries self.now) (tag_of tag) }
    {
        self.find(tag.rank(), tag.qualifier())
    }

    /// Returns the permissions of the group with a number, if it has an entry.
    fn get_group(&self, number: u32) -> Option<Perm>
        ensures { option_map (λ perm. perm.bits) result
            ≡ set.get (entries self.now) (group number) }
    {
        self.find(GROUP_RANK, number)
    }

    /// Returns the permissions of the tag with a rank and a qualifier, if it has an entry.
    fn find(&self, rank: u8, qualifier: u32) -> Option<Perm>
        ensures { (tag : AnyTag) → rank ≡ rank_of tag → qualifier ≡ qualifier_of tag
            → option_map (λ perm. perm.bits) result ≡ set.get (entries self.now) tag }
    {
        match self.place_of(rank, qualifier) {
            Some(place) => Some(self.entry_at(place).perm),
            None => None,
        }
    }

    /// Returns the place of the tag with a rank and a qualifier, if it has an entry.
    fn place_of(&self, rank: u8, qualifier: u32) -> Option<usize>
        ensures found { (tag : AnyTag) → rank ≡ rank_of tag → qualifier ≡ qualifier_of tag
            → IsFoundAt (entries self.now) tag result }
        ensures in_range { IfSome result (λ place.
            place < length (set.entries (entries self.now))) }
    {
        let mut low = 0;
        let mut high = self.count();
        while low < high {
            let middle = low + (high - low) / 2;
            match order_of(self.entry_at(middle).tag, rank, qualifier) {
                Ordering::Less => low = middle + 1,
                Ordering::Equal => return Some(middle),
                Ordering::Greater => high = middle,
            }
        }
        None
    }

    fn has(&self, tag: Tag) -> bool
        ensures { result ≡ set.contains_key (entries self.now) (tag_of tag) }
    {
        self.get(tag).is_some()
    }

    /// Returns the permissions of a tag, or no permissions if it has no entry.
    fn perm_at(&self, tag: Tag) -> Perm
        ensures { result.bits ≡ perm_at (entries self.now) (tag_of tag) }
    {
        self.get(tag).unwrap_or(Perm::NONE)
    }

    /// Returns the tag of the entry that the group bits of the mode show.
    fn group_class(&self) -> Tag
        ensures { tag_of result ≡ group_class (entries self.now) }
    {
        if self.has(Tag::Mask) {
            Tag::Mask
        } else {
            Tag::GroupObj
        }
    }

    fn mode_bits(&self) -> Mode
        ensures { result.bits ≡ mode_of (entries self.now) }
    {
        Mode::from_parts(
            self.perm_at(Tag::UserObj),
            self.perm_at(self.group_class()),
            self.perm_at(Tag::Other),
        )
    }

    /// Returns the first tag that is required and absent.
    #[tactic(auto, unfolding(crate::specs::Valid::missing))]
    fn missing(&self) -> Option<Tag>
        ensures { option_map tag_of result ≡ missing (entries self.now) }
    {
        if !self.has(Tag::UserObj) {
            Some(Tag::UserObj)
        } else if !self.has(Tag::GroupObj) {
            Some(Tag::GroupObj)
        } else if !self.has(Tag::Other) {
            Some(Tag::Other)
        } else if self.any_named() && !self.has(Tag::Mask) {
            Some(Tag::Mask)
        } else {
            None
        }
    }

    /// Returns whether there is a USER or GROUP entry.
    fn any_named(&self) -> bool
        ensures { result ≡ list_any is_named (set.keys (entries self.now)) }
    {
        for place in 0..self.count() {
            if self.entry_at(place).tag.is_named() {
                return true;
            }
        }
        false
    }
}

/// Returns how a tag compares with the tag of a rank and a qualifier, in canonical order.
fn order_of(tag: Tag, rank: u8, qualifier: u32) -> Ordering
    ensures { result ≡ order_of (tag_of tag) rank qualifier }
{
    match tag.rank().cmp(&rank) {
        Ordering::Equal => tag.qualifier().cmp(&qualifier),
        order => order,
    }
}
