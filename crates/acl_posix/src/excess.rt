//! Whether one set of entries grants more than another.
ghost use Rattle.std.specs.Prelude.{◌≡◌, ◌==◌, ℕ, IfSome, IsNone, true, false};
ghost use Rattle.std.specs.FinMap as set;
ghost use Rattle.acl_posix.specs.Excess.{GrantsNothingMore, GrantsNothingMoreOf, group_numbers, IsLowestRequest, IsPosixExcess};
ghost use Rattle.acl_posix.specs.Id.{IsId};
ghost use Rattle.acl_posix.specs.Tag.{user as user_tag};
ghost use Rattle.acl_posix.specs.internal.GroupAnswers.{either_lists, either_names, IsExcessOf, IsFreeId, IsUserExcess, NamesUsers, NoExcessAt, NoUserExcess, Reaches};

use crate::difference::{FewGroups, PosixDifference};
use crate::group_answers::{Asked, GroupAnswers};
use crate::id::Id;
use crate::sorted::SortedEntries;
use crate::tag::Tag;
use acl_perm::Perm;

/// Groups with which one set grants a request, and groups with which another denies it.
#[derive(Clone, Copy, Debug)]
pub(crate) struct Reached {
    granted: Option<FewGroups>,
    denied: Option<FewGroups>,
}

/// Whether a set of entries grants more than another.
pub(crate) trait Excess: GroupAnswers {
    /// Returns a requester and an object for which this set grants a request that another denies.
    fn difference(&self, second: &Self) -> Option<PosixDifference>
        ensures none { IsNone result → GrantsNothingMore (Self.entries self.now)
            (Self.entries second.now) }
        ensures some { IfSome result (IsPosixExcess (Self.entries self.now)
            (Self.entries second.now)) }
        ensures lowest { IfSome result (IsLowestRequest (Self.entries self.now)
            (Self.entries second.now)) }
    {
        let user = self.free_user(second);
        let group = self.free_group(second);
        for bits in 0..8 {
            let request = Perm { bits };
            if let Some(difference) = self.excess_of(second, user, group, request) {
                return Some(difference);
            }
        }
        None
    }

    /// Returns a difference for one request, where the ids are named as a user and listed as a group in neither set.
    fn excess_of(
        &self,
        second: &Self,
        user: Option<Id>,
        group: Option<Id>,
        request: Perm,
    ) -> Option<PosixDifference>
        requires user { IsFreeId (either_names (Self.entries self.now) (Self.entries second.now))
            user }
        requires group { IsFreeId (either_lists (Self.entries self.now) (Self.entries second.now))
            group }
        ensures none { IsNone result
            → GrantsNothingMoreOf (Self.entries self.now) (Self.entries second.now) request.bits }
        ensures some { IfSome result (IsExcessOf (Self.entries self.now) (Self.entries second.now)
            request.bits) }
    {
        if self.entry_contains(Tag::UserObj, request)
            && !second.entry_contains(Tag::UserObj, request)
        {
            return Some(owner_difference(request));
        }
        match group {
            Some(group) => self.excess_at(second, user, Asked { group, request }),
            None => self.excess_anywhere(second, user, request),
        }
    }

    /// Returns a difference for one request to a user who is not the owner, with any owning group.
    fn excess_anywhere(
        &self,
        second: &Self,
        user: Option<Id>,
        request: Perm,
    ) -> Option<PosixDifference>
        requires { IsFreeId (either_names (Self.entries self.now) (Self.entries second.now)) user }
        ensures none { IsNone result → (group : ℕ) → IsId group
            → NoUserExcess (Self.entries self.now) (Self.entries second.now) group request.bits }
        ensures some { IfSome result (IsExcessOf (Self.entries self.now) (Self.entries second.now)
            request.bits) }
    {
        for value in 0..u32::MAX {
            let group = Id { value };
            if let Some(difference) = self.excess_at(second, user, Asked { group, request }) {
                return Some(difference);
            }
        }
        None
    }

    /// Returns a difference for one request to a user who is not the owner, with one owning group.
    fn excess_at(&self, second: &Self, user: Option<Id>, asked: Asked) -> Option<PosixDifference>
        requires { IsFreeId (either_names (Self.entries self.now) (Self.entries second.now)) user }
        ensures none { IsNone result → NoUserExcess (Self.entries self.now)
            (Self.entries second.now)
            asked.group.value asked.request.bits }
        ensures some { IfSome result
            (IsExcessOf (Self.entries self.now) (Self.entries second.now) asked.request.bits) }
    {
        let granted = self.groups_with(asked, true);
        let denied = second.groups_with(asked, false);
        let reached = Reached { granted, denied };
        if let Some(difference) = self.users_excess(self, second, asked, reached) {
            return Some(difference);
        }
        if let Some(difference) = second.users_excess(self, second, asked, reached) {
            return Some(difference);
        }
        let Some(user) = user else {
            return None;
        };
        let Some(groups) = self.group_excess(second, asked) else {
            return None;
        };
        Some(difference_of(asked, user, groups))
    }

    /// Returns a difference for one request to a user whom this set names, which is one of two sets.
    fn users_excess(
        &self,
        first: &Self,
        second: &Self,
        asked: Asked,
        reached: Reached,
    ) -> Option<PosixDifference>
        requires names { NamesUsers (Self.entries self.now) (Self.entries first.now)
            (Self.entries second.now) }
        requires granted { Reaches (Self.entries first.now) asked.group.value asked.request.bits
            true reached.granted }
        requires denied { Reaches (Self.entries second.now) asked.group.value asked.request.bits
            false reached.denied }
        ensures none { IsNone result → (id : ℕ)
            → set.contains_key (Self.entries self.now) (user_tag id) ≡ true
            → NoExcessAt (Self.entries first.now) (Self.entries second.now)
            asked.group.value asked.request.bits id }
        ensures some { IfSome result
            (IsExcessOf (Self.entries first.now) (Self.entries second.now) asked.request.bits) }
    {
        for place in 0..self.count() {
            if let Some(user) = self.user_at(place) {
                if let Some(groups) = first.user_excess(second, asked, reached, user) {
                    return Some(difference_of(asked, user, groups));
                }
            }
        }
        None
    }

    /// Returns groups with which this set grants a request of a user, whom one of the two sets names, and another set
    /// denies it.
    fn user_excess(
        &self,
        second: &Self,
        asked: Asked,
        reached: Reached,
        user: Id,
    ) -> Option<FewGroups>
        requires named { either_names (Self.entries self.now) (Self.entries second.now) user.value
            ≡ true }
        requires granted { Reaches (Self.entries self.now) asked.group.value asked.request.bits
            true reached.granted }
        requires denied { Reaches (Self.entries second.now) asked.group.value asked.request.bits
            false reached.denied }
        ensures none { IsNone result → NoExcessAt (Self.entries self.now) (Self.entries second.now)
            asked.group.value asked.request.bits user.value }
        ensures some { IfSome result (λ few.
            IsUserExcess (Self.entries self.now) (Self.entries second.now)
            asked.group.value asked.request.bits user.value (group_numbers few)) }
    {
        match (
            self.user_answer(user, asked.request),
            second.user_answer(user, asked.request),
        ) {
            (Some(true), Some(false)) => Some(FewGroups::None),
            (Some(true), None) => reached.denied,
            (None, Some(false)) => reached.granted,
            _ => None,
        }
    }

    /// Returns the lowest id that neither set names as a user.
    fn free_user(&self, second: &Self) -> Option<Id>
        ensures { IsFreeId (either_names (Self.entries self.now) (Self.entries second.now)) result }
    {
        for value in 0..u32::MAX {
            let id = Id { value };
            if !self.has(Tag::User(id)) && !second.has(Tag::User(id)) {
                return Some(id);
            }
        }
        None
    }

    /// Returns the lowest id that neither set lists as a group.
    fn free_group(&self, second: &Self) -> Option<Id>
        ensures { IsFreeId (either_lists (Self.entries self.now) (Self.entries second.now)) result }
    {
        for value in 0..u32::MAX {
            let id = Id { value };
            if !self.has(Tag::Group(id)) && !second.has(Tag::Group(id)) {
                return Some(id);
            }
        }
        None
    }
}

impl Excess for SortedEntries {}

fn owner_difference(request: Perm) -> PosixDifference
    ensures owner { result.user ≡ result.owner }
    ensures request { result.request ≡ request }
{
    let id = Id { value: 0 };
    PosixDifference {
        owner: id,
        group: id,
        user: id,
        groups: FewGroups::None,
        request,
    }
}

/// Returns the difference for a user in these groups, on an object of another owner.
fn difference_of(asked: Asked, user: Id, groups: FewGroups) -> PosixDifference
    ensures owner { (result.user.value == result.owner.value) ≡ false }
    ensures user { result.user ≡ user }
    ensures groups { result.groups ≡ groups }
    ensures group { result.group ≡ asked.group }
    ensures request { result.request ≡ asked.request }
{
    let value = if user.value == 0 { 1 } else { 0 };
    PosixDifference {
        owner: Id { value },
        group: asked.group,
        user,
        groups,
        request: asked.request,
    }
}
