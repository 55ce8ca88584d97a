//! What a bound grants to everybody for whom the access check looks at one entry of an ACL.
ghost use Rattle.std.specs.Prelude.{◌≡◌, ◌<◌, ◌^◌, ◌&&◌, ◌||◌, ℕ, Bool, is_none};
ghost use Rattle.acl_perm.specs.Bits.{has_bit};
ghost use Rattle.std.specs.FinMap as set;
ghost use Rattle.acl_posix.specs.Entries.{pairs};
ghost use Rattle.acl_posix.specs.Tag.{group, group_obj, tag_of};
ghost use Rattle.acl_posix.specs.Valid.{IsValid};
ghost use Rattle.acl_posix.specs.internal.GroupAnswers.{either_names, IsFreeId};
ghost use Rattle.acl_posix_contain.specs.internal.Limits.{all_hold, ArePosixLimits, ArePassing, entry_gets, gets, HaveLimits, holds, IsKept, is_of_class};

use acl_perm::Perm;
use acl_posix::{Entry, Id, PosixAcl, Tag};

/// Some entries of a bound, beside an ACL.
#[derive(Clone, Copy, Debug)]
pub(super) enum Class {
    /// The users whom the ACL does not name.
    NewUsers,
    /// The groups.
    Groups,
    /// The groups of which the ACL has no entry.
    NewGroups,
}

impl Class {
    // Whether an entry of the bound is one of these.
    fn has(self, acl: &PosixAcl, tag: Tag) -> bool
        ensures { result ≡ is_of_class acl.now self (tag_of tag) }
    {
        match (self, tag) {
            (Class::NewUsers, Tag::User(_)) | (Class::NewGroups, Tag::Group(_)) => {
                acl.get(tag).is_none()
            }
            (Class::Groups, Tag::Group(_)) => true,
            _ => false,
        }
    }
}

/// What a bound grants to everybody of some kinds. Those whom it names have their own entries.
#[derive(Clone, Copy, Debug)]
pub(super) struct Limits {
    /// A user whom neither the ACL nor the bound names.
    free_user: Option<Id>,
    /// What it grants to each user whom it names and the ACL does not.
    new_users: Perm,
    /// What it grants to others in the owning group.
    owning: Perm,
    /// What it grants to all others.
    strangers: Perm,
    /// What it grants to others of whom the ACL lists no group.
    others: Perm,
}

impl Limits {
    /// Returns what the bound grants. It takes time n log n for n entries in both ACLs.
    pub(super) fn of(acl: &PosixAcl, bound: &PosixAcl) -> Limits
        ensures { ArePosixLimits acl.now bound.now result }
    {
        let entries = bound.entries();
        let rest = held(bound, Tag::Other);
        let groups = common(acl, bound, entries, Class::Groups);
        let owning = owning(bound, free_group(bound), groups);
        Limits {
            free_user: free_user(acl, bound),
            new_users: common(acl, bound, entries, Class::NewUsers),
            owning,
            strangers: rest.intersection(groups.intersection(owning)),
            others: rest.intersection(common(acl, bound, entries, Class::NewGroups)),
        }
    }

    /// Returns the permissions that an entry of the ACL keeps: those that MASK hides, and those that the bound grants to
    /// everybody for whom the check looks at the entry.
    pub(super) fn kept(&self, acl: &PosixAcl, bound: &PosixAcl, entry: Entry) -> Perm
        requires valid { IsValid acl.now }
        requires limits { ArePosixLimits acl.now bound.now self.now }
        ensures { IsKept acl.now bound.now (tag_of entry.tag) entry.perm.bits result.bits }
    {
        let granted = acl.effective(entry);
        let excess = granted.difference(self.limit(acl, bound, entry.tag));
        entry.perm.difference(excess)
    }

    // What the bound grants to everybody for whom the check looks at the entry of a tag.
    fn limit(&self, acl: &PosixAcl, bound: &PosixAcl, tag: Tag) -> Perm
        ensures { (groups : Bool) → HaveLimits acl.now bound.now groups self.now
            → ArePassing result.bits (λ request.
            gets acl.now bound.now (is_none self.now.free_user) groups request (tag_of tag)) }
    {
        match tag {
            Tag::UserObj => held(bound, tag),
            Tag::User(_) => held_or(bound, tag, self.strangers),
            Tag::GroupObj => self.of_class(self.owning),
            Tag::Group(_) => self.of_class(held_or(bound, tag, self.strangers)),
            Tag::Mask => Perm::ALL,
            Tag::Other => self.of_class(self.others),
        }
    }

    // What users whom only the bound names have in common with all others, who have these permissions.
    fn of_class(&self, rest: Perm) -> Perm
        ensures { (bit : ℕ) → bit < 3 → has_bit result.bits bit
            ≡ (has_bit self.now.new_users.bits bit
            && (is_none self.now.free_user || has_bit rest.bits bit)) }
    {
        match self.free_user {
            Some(_) => self.new_users.intersection(rest),
            None => self.new_users,
        }
    }
}

// The permissions that the entry of a tag grants, or these if there is no entry.
fn held_or(acl: &PosixAcl, tag: Tag, rest: Perm) -> Perm
    ensures { (bit : ℕ) → bit < 3 → has_bit result.bits bit
        ≡ entry_gets acl.now (tag_of tag) (2 ^ bit) (has_bit rest.bits bit) }
{
    match acl.get(tag) {
        Some(perm) => acl.effective(Entry { tag, perm }),
        None => rest,
    }
}

// The permissions that the entry of a tag grants.
fn held(acl: &PosixAcl, tag: Tag) -> Perm
    ensures { ArePassing result.bits (holds acl.now (tag_of tag)) }
{
    held_or(acl, tag, Perm::NONE)
}

// The permissions that each entry of a class grants.
fn common(acl: &PosixAcl, bound: &PosixAcl, entries: &[Entry], class: Class) -> Perm
    requires { pairs entries.now ≡ set.entries bound.now }
    ensures { ArePassing result.bits (all_hold acl.now bound.now class) }
{
    let mut common = Perm::ALL;
    for entry in entries {
        if class.has(acl, entry.tag) {
            common = common.intersection(held(bound, entry.tag));
        }
    }
    common
}

// What the bound grants to those in the owning group whom it does not name. If it has an entry of each group, the entry
// of the owning group is enough.
fn owning(bound: &PosixAcl, free: Option<Id>, groups: Perm) -> Perm
    ensures { (bit : ℕ) → bit < 3 → has_bit result.bits bit
        ≡ (holds bound.now group_obj (2 ^ bit) || (is_none free && has_bit groups.bits bit)) }
{
    let own = held(bound, Tag::GroupObj);
    match free {
        Some(_) => own,
        None => own.union(groups),
    }
}

// The lowest id that neither ACL names as a user.
fn free_user(acl: &PosixAcl, bound: &PosixAcl) -> Option<Id>
    ensures { IsFreeId (either_names acl.now bound.now) result }
{
    for value in 0..u32::MAX {
        let id = Id { value };
        if acl.get(Tag::User(id)).is_none() && bound.get(Tag::User(id)).is_none() {
            return Some(id);
        }
    }
    None
}

// The lowest id that the ACL does not list as a group.
fn free_group(acl: &PosixAcl) -> Option<Id>
    ensures { IsFreeId (λ id. set.contains_key acl.now (group id)) result }
{
    for value in 0..u32::MAX {
        let id = Id { value };
        if acl.get(Tag::Group(id)).is_none() {
            return Some(id);
        }
    }
    None
}
