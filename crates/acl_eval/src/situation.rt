//! A requester, and an object with its owner and group. No name is empty.
ghost use Rattle.std.specs.Prelude.{◌≡◌, ◌<◌, ◌↔◌, IfSome, IsSome, IsTrue, All, length, map};
ghost use Rattle.std.specs.List.{list_any};
ghost use Rattle.std.specs.Str.{bytes_eq};
ghost use Rattle.acl_eval.specs.GroupSearch.{AreAmong, AreRisingNames, AreSameGroups, found_groups};
ghost use Rattle.acl_eval.specs.Situation.{given_groups_of, groups_of, owner_of, owning_group_of, user_of};
ghost use Rattle.acl_eval.specs.internal.GroupOrder.{IsSortedCopy};

use crate::groups::Groups;

/// The object of a request: its owner and its owning group.
#[derive(Clone, Copy, Debug)]
pub struct Object<'a> {
    owner: &'a [u8],
    group: &'a [u8],
}

impl<'a> Object<'a> {
    /// Makes an object of these names, which it borrows, or returns `None` if one of them is empty.
    ///
    /// ```rust
    /// let object = Object::new(b"alice", b"staff");
    /// assert!(rt; object.is_some());
    /// assert!(rt; Object::new(b"alice", b"").is_none());
    /// ```
    pub fn new(owner: &'a [u8], group: &'a [u8]) -> Option<Self>
        ensures named { IsSome result ↔ ((0 < length owner.now) × (0 < length group.now)) }
        ensures owner { IfSome result (λ object. owner_of object ≡ owner.now) }
        ensures group { IfSome result (λ object. owning_group_of object ≡ group.now) }
    {
        if owner.is_empty() || group.is_empty() {
            None
        } else {
            Some(Object { owner, group })
        }
    }

    /// Returns the name of the owner, which is not empty.
    pub fn owner(&self) -> &'a [u8]
        ensures { result.now ≡ owner_of self.now }
    {
        self.owner
    }

    /// Returns the name of the owning group, which is not empty.
    pub fn group(&self) -> &'a [u8]
        ensures { result.now ≡ owning_group_of self.now }
    {
        self.group
    }
}

/// Who requests access: a user, and the groups of that user.
#[derive(Clone, Copy, Debug)]
pub struct Requester<'a> {
    user: &'a [u8],
    pub(crate) groups: Groups<'a>,
}

impl<'a> Requester<'a> {
    /// Makes a requester of these names, which it borrows, or returns `None` if one of them is empty. There may be no
    /// group, and a group that is named twice counts once. If the groups are in the order of their bytes, long lists
    /// are decided faster.
    ///
    /// ```rust
    /// let requester = Requester::new(b"bob", &[b"staff", b"users"]);
    /// assert!(rt; requester.is_some());
    /// assert!(rt; Requester::new(b"bob", &[b""]).is_none());
    /// ```
    pub fn new(user: &'a [u8], groups: &'a [&'a [u8]]) -> Option<Self>
        ensures named { IsSome result
            ↔ ((0 < length user.now)
            × All (λ g. 0 < length g) (map (λ g. g.now) groups.now)) }
        ensures user { IfSome result (λ requester. user_of requester ≡ user.now) }
        ensures groups { IfSome result (λ requester.
            groups_of requester ≡ map (λ g. g.now) groups.now) }
        ensures given { IfSome result (λ requester.
            given_groups_of requester ≡ map (λ g. g.now) groups.now) }
    {
        if are_named(user, groups) {
            let groups = Groups::new(groups);
            Some(Requester { user, groups })
        } else {
            None
        }
    }

    /// Makes what `new` makes, for a requester that is asked about many lists. If there are many groups, it finds out
    /// once whether they are in the order of their bytes. If they are, every list is decided faster: a group is then
    /// looked up by binary search, in short lists too.
    ///
    /// ```rust
    /// let requester = Requester::for_many_lists(b"bob", &[b"staff", b"users"]);
    /// assert!(rt; requester.is_some());
    /// ```
    pub fn for_many_lists(user: &'a [u8], groups: &'a [&'a [u8]]) -> Option<Self>
        ensures named { IsSome result
            ↔ ((0 < length user.now)
            × All (λ g. 0 < length g) (map (λ g. g.now) groups.now)) }
        ensures user { IfSome result (λ requester. user_of requester ≡ user.now) }
        ensures groups { IfSome result (λ requester.
            groups_of requester ≡ map (λ g. g.now) groups.now) }
        ensures given { IfSome result (λ requester.
            given_groups_of requester ≡ map (λ g. g.now) groups.now) }
    {
        if are_named(user, groups) {
            let judged = Groups::judged(groups);
            Some(Requester {
                user,
                groups: judged,
            })
        } else {
            None
        }
    }

    /// Makes a requester of whose groups the caller says that they are in the order of their bytes. It does not find
    /// out whether they are. A group is looked up by binary search at once, in short lists too. If they are in no
    /// order, the search can miss some of them, as if they were not given: a DENY of such a group then denies nothing.
    /// It never finds a group that was not given.
    ///
    /// ```rust
    /// let requester = Requester::in_order(b"bob", &[b"staff", b"users"]);
    /// assert!(rt; requester.is_some());
    /// assert!(rt; Requester::in_order(b"bob", &[b""]).is_none());
    /// ```
    pub fn in_order(user: &'a [u8], groups: &'a [&'a [u8]]) -> Option<Self>
        ensures named { IsSome result
            ↔ ((0 < length user.now)
            × All (λ g. 0 < length g) (map (λ g. g.now) groups.now)) }
        ensures user { IfSome result (λ requester. user_of requester ≡ user.now) }
        ensures given { IfSome result (λ requester.
            given_groups_of requester ≡ map (λ g. g.now) groups.now) }
        // The groups are those that a binary search finds.
        ensures found { IfSome result (λ requester.
            groups_of requester ≡ found_groups (map (λ g. g.now) groups.now)) }
        // If the names are in order, these are all of them.
        ensures rising { AreRisingNames (map (λ g. g.now) groups.now)
            → IfSome result (λ requester.
            AreSameGroups (groups_of requester) (map (λ g. g.now) groups.now)) }
        // In any order, each group is one of the names.
        ensures within { IfSome result (λ requester.
            AreAmong (groups_of requester) (map (λ g. g.now) groups.now)) }
    {
        if !are_named(user, groups) {
            return None;
        }
        Some(Requester {
            user,
            groups: Groups::said(groups),
        })
    }

    /// Returns the same requester, for this many look-ups of groups.
    pub fn for_look_ups(self, look_ups: usize) -> Self
        ensures user { user_of result ≡ user_of self.entry }
        ensures groups { groups_of result ≡ groups_of self.entry }
        ensures given { given_groups_of result ≡ given_groups_of self.entry }
    {
        Requester {
            user: self.user,
            groups: self.groups.for_look_ups(look_ups),
        }
    }

    /// Returns the same requester, and looks groups up in this copy of their names.
    pub(crate) fn with_copy<'b>(&self, copy: &'b [&'a [u8]]) -> Requester<'b>
        requires copied { IsSortedCopy self.now.groups.names.now copy.now }
        requires counted { groups_of self.now ≡ given_groups_of self.now }
        ensures user { user_of result ≡ user_of self.now }
        ensures groups { groups_of result ≡ groups_of self.now }
        ensures given { given_groups_of result ≡ given_groups_of self.now }
    {
        Requester {
            user: self.user,
            groups: Groups::copied(self.groups(), copy),
        }
    }

    /// Returns the name of the user, which is not empty.
    pub fn user(&self) -> &'a [u8]
        ensures { result.now ≡ user_of self.now }
    {
        self.user
    }

    /// Returns whether the user has this name.
    pub fn is_named(&self, name: &[u8]) -> bool
        ensures { result ≡ bytes_eq (user_of self.now) name.now }
    {
        self.user == name
    }

    /// Returns the names of the groups as they were given: none is empty, and one may be there twice.
    pub fn groups(&self) -> &'a [&'a [u8]]
        ensures { map (λ g. g.now) result.now ≡ given_groups_of self.now }
    {
        self.groups.names()
    }

    /// Returns whether the user is in the group with this name.
    pub fn is_in(&self, name: &[u8]) -> bool
        ensures { result ≡ list_any (bytes_eq name.now) (groups_of self.now) }
    {
        self.groups.contains(name)
    }
}

fn are_named(user: &[u8], groups: &[&[u8]]) -> bool
    ensures { IsTrue result
        ↔ ((0 < length user.now) × All (λ g. 0 < length g.now) groups.now) }
{
    !user.is_empty() && groups.iter().all(|group| !group.is_empty())
}
