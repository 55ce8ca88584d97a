//! What a set of entries answers to a request by the groups of a requester.
ghost use Rattle.std.specs.Prelude.{◌≡◌, ◌<◌, ℕ, List, Option, IfSome, IsNone, Some, IsTrue, ◌↔◌, length, option_map};
ghost use Rattle.std.specs.FinMap as set;
ghost use Rattle.acl_posix.specs.Excess.{group_numbers};
ghost use Rattle.acl_posix.specs.Valid.{tag_at};
ghost use Rattle.acl_posix.specs.internal.GroupAnswers.{group_answer, group_id, HasAnswers, IsGroupExcess, Reaches, user_answer, user_id};

use crate::check::AccessCheck;
use crate::difference::FewGroups;
use crate::id::Id;
use crate::sorted::SortedEntries;
use crate::tag::Tag;
use acl_perm::Perm;

/// A request, and the owning group of the object.
#[derive(Clone, Copy, Debug)]
pub(crate) struct Asked {
    pub(crate) group: Id,
    pub(crate) request: Perm,
}

/// What a set of entries answers to a request by the groups of a requester whom no other entry matches.
pub(crate) trait GroupAnswers: AccessCheck {
    /// Returns the answer of the entries that match by one group, if some entry does.
    #[tactic(auto, unfolding(crate::specs::internal::GroupAnswers::group_answer))]
    fn group_answer(&self, asked: Asked, group: Id) -> Option<bool>
        ensures { result ≡ group_answer (Self.entries self.now) asked.group.value
            asked.request.bits group.value }
    {
        if !self.group_contains(asked.group, group.value, Perm::NONE) {
            return None;
        }
        Some(match self.get(Tag::Mask) {
            Some(mask) => mask.contains(asked.request)
                && self.group_contains(asked.group, group.value, asked.request),
            None => self.entry_contains(Tag::GroupObj, asked.request),
        })
    }

    /// Returns the answer of the entry of a user, with the MASK, if the user has an entry.
    #[tactic(auto, unfolding(crate::specs::internal::GroupAnswers::user_answer))]
    fn user_answer(&self, user: Id, request: Perm) -> Option<bool>
        ensures { result ≡ user_answer (Self.entries self.now) user.value request.bits }
    {
        match self.get(Tag::User(user)) {
            Some(perm) => Some(perm.contains(request) && self.entry_contains(Tag::Mask, request)),
            None => None,
        }
    }

    /// Returns the group of the entry at a place, if it is a GROUP entry.
    fn group_at(&self, place: usize) -> Option<Id>
        requires { place < length (set.entries (Self.entries self.now)) }
        ensures { option_map (λ id. id.value) result
            ≡ group_id (tag_at (set.entries (Self.entries self.now)) place) }
    {
        match self.entry_at(place).tag {
            Tag::Group(id) => Some(id),
            _ => None,
        }
    }

    /// Returns the user of the entry at a place, if it is a USER entry.
    fn user_at(&self, place: usize) -> Option<Id>
        requires { place < length (set.entries (Self.entries self.now)) }
        ensures { option_map (λ id. id.value) result
            ≡ user_id (tag_at (set.entries (Self.entries self.now)) place) }
    {
        match self.entry_at(place).tag {
            Tag::User(id) => Some(id),
            _ => None,
        }
    }

    /// Returns whether this set and another give these answers to one group.
    fn has_answers(
        &self,
        two: &Self,
        asked: Asked,
        own: bool,
        others: Option<bool>,
        group: Id,
    ) -> bool
        ensures { IsTrue result ↔ HasAnswers (Self.entries self.now) (Self.entries two.now)
            asked.group.value asked.request.bits own others group.value }
    {
        self.group_answer(asked, group) == Some(own) && two.group_answer(asked, group) == others
    }

    /// Returns a group that some entry of this set matches, and to which this set and another give these answers.
    fn group_with(&self, two: &Self, asked: Asked, own: bool, others: Option<bool>) -> Option<Id>
        ensures some { IfSome result (λ id.
            HasAnswers (Self.entries self.now) (Self.entries two.now)
            asked.group.value asked.request.bits own others id.value) }
        ensures none { IsNone result → (id : ℕ)
            → HasAnswers (Self.entries self.now) (Self.entries two.now)
            asked.group.value asked.request.bits own others id → ⊥ }
    {
        if self.has_answers(two, asked, own, others, asked.group) {
            return Some(asked.group);
        }
        for place in 0..self.count() {
            if let Some(group) = self.group_at(place) {
                if self.has_answers(two, asked, own, others, group) {
                    return Some(group);
                }
            }
        }
        None
    }

    /// Returns groups with which this set gives this answer.
    fn groups_with(&self, asked: Asked, answer: bool) -> Option<FewGroups>
        ensures { Reaches (Self.entries self.now) asked.group.value asked.request.bits answer
            result }
    {
        if self.entry_contains(Tag::Other, asked.request) == answer {
            return Some(FewGroups::None);
        }
        match self.group_with(self, asked, answer, Some(answer)) {
            Some(group) => Some(FewGroups::One(group)),
            None => None,
        }
    }

    /// Returns groups with which this set grants what another denies. At most two groups are needed: one that makes
    /// this set grant, and one whose entry in the other set denies.
    fn group_excess(&self, second: &Self, asked: Asked) -> Option<FewGroups>
        ensures some { IfSome result (λ few.
            IsGroupExcess (Self.entries self.now) (Self.entries second.now)
            asked.group.value asked.request.bits (group_numbers few)) }
        ensures none { IsNone result → (groups : List ℕ) → IsGroupExcess (Self.entries self.now)
            (Self.entries second.now) asked.group.value asked.request.bits groups → ⊥ }
    {
        let first_grants = self.entry_contains(Tag::Other, asked.request);
        let second_grants = second.entry_contains(Tag::Other, asked.request);
        if first_grants && !second_grants {
            return Some(FewGroups::None);
        }
        if let Some(group) = self.group_with(second, asked, true, Some(false)) {
            return Some(FewGroups::One(group));
        }
        if first_grants {
            if let Some(group) = second.group_with(self, asked, false, None) {
                return Some(FewGroups::One(group));
            }
        }
        let Some(granting) = self.group_with(second, asked, true, None) else {
            return None;
        };
        if !second_grants {
            return Some(FewGroups::One(granting));
        }
        let Some(denying) = second.group_with(second, asked, false, Some(false)) else {
            return None;
        };
        Some(FewGroups::Two(granting, denying))
    }
}

impl GroupAnswers for SortedEntries {}
