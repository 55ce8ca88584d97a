//! Which entry decides a request.
ghost use Rattle.std.specs.Prelude.{◌≡◌, ◌&&◌, map, option_map};
ghost use Rattle.acl_posix.specs.Check.{grants, is_member, tag_matches};
ghost use Rattle.acl_posix.specs.Deciding.{decider, decider_contains, first_match, is_masked_off};
ghost use Rattle.acl_posix.specs.Tag.{tag_of};

use crate::check::AccessCheck;
use crate::group_number::GroupNumber;
use crate::id::Id;
use crate::sorted::SortedEntries;
use crate::tag::Tag;
use acl_perm::Perm;

/// How a request is decided.
#[derive(Clone, Copy, Debug, PartialEq, Eq)]
pub struct EntryDecision {
    /// Whether all that is requested is granted.
    pub granted: bool,
    /// The entry that decides. `None` means that entries of groups match, and none of them has all that is requested.
    pub entry: Option<Tag>,
    /// Whether the request is denied although the entry that decides has all that is requested, because MASK has not.
    pub masked: bool,
}

/// Which entry of a set decides a request.
pub(crate) trait Deciding: AccessCheck {
    /// Returns how a request is decided.
    fn decision<G: GroupNumber>(
        &self,
        owner: Id,
        group: Id,
        user: Id,
        groups: &[G],
        want: Perm,
    ) -> EntryDecision
        ensures granted { result.granted ≡ grants (Self.entries self.now)
            (record { user = owner.value; group = group.value })
            (record { user = user.value; groups = map G.number groups.now })
            want.bits }
        ensures entry { option_map tag_of result.entry ≡ decider (Self.entries self.now)
            (record { user = owner.value; group = group.value })
            (record { user = user.value; groups = map G.number groups.now })
            want.bits }
        ensures masked { result.masked ≡ is_masked_off (Self.entries self.now)
            (record { user = owner.value; group = group.value })
            (record { user = user.value; groups = map G.number groups.now })
            want.bits }
    {
        let granted = self.grants(owner, group, user, groups, want);
        let entry = self.decider(owner, group, user, groups, want);
        let masked = self.decider_contains(entry, want) && !granted;
        EntryDecision {
            granted,
            entry,
            masked,
        }
    }

    #[tactic(auto, unfolding(crate::specs::Deciding::decider))]
    fn decider<G: GroupNumber>(
        &self,
        owner: Id,
        group: Id,
        user: Id,
        groups: &[G],
        want: Perm,
    ) -> Option<Tag>
        ensures { option_map tag_of result ≡ decider (Self.entries self.now)
            (record { user = owner.value; group = group.value })
            (record { user = user.value; groups = map G.number groups.now })
            want.bits }
    {
        if user.value == owner.value {
            Some(Tag::UserObj)
        } else if self.has(Tag::User(user)) {
            Some(Tag::User(user))
        } else if self.any_matches(group, groups) {
            self.first_match(group, groups, want)
        } else {
            Some(Tag::Other)
        }
    }

    fn decider_contains(&self, entry: Option<Tag>, want: Perm) -> bool
        ensures { result ≡ decider_contains (Self.entries self.now) (option_map tag_of entry)
            want.bits }
    {
        match entry {
            Some(tag) => self.entry_contains(tag, want),
            None => false,
        }
    }

    /// Returns the tag of the first entry that matches by a group of the requester and has all that is requested.
    fn first_match<G: GroupNumber>(&self, owning_group: Id, groups: &[G], want: Perm) -> Option<Tag>
        ensures { option_map tag_of result ≡ option_map (λ entry. entry.0)
            (first_match (Self.entries self.now) owning_group.value
            (map G.number groups.now) want.bits) }
    {
        for place in 0..self.count() {
            let entry = self.entry_at(place);
            if tag_matches(owning_group, groups, entry.tag) && entry.perm.contains(want) {
                return Some(entry.tag);
            }
        }
        None
    }
}

impl Deciding for SortedEntries {}

fn tag_matches<G: GroupNumber>(owning_group: Id, groups: &[G], tag: Tag) -> bool
    ensures { result ≡ tag_matches owning_group.value (map G.number groups.now) (tag_of tag) }
{
    match tag {
        Tag::GroupObj => is_member(owning_group, groups),
        Tag::Group(id) => is_member(id, groups),
        Tag::UserObj | Tag::User(_) | Tag::Mask | Tag::Other => false,
    }
}

fn is_member<G: GroupNumber>(id: Id, groups: &[G]) -> bool
    ensures { result ≡ is_member id.value (map G.number groups.now) }
{
    groups.iter().any(|one| one.number() == id.value)
}
