//! What a comparison of two ACLs finds.

use crate::id::Id;
use acl_perm::Perm;

/// A requester and an object for which one of two ACLs grants a request that the other denies.
#[derive(Clone, Copy, Debug, PartialEq, Eq)]
pub struct PosixDifference {
    /// The owner of the object.
    pub owner: Id,
    /// The owning group of the object.
    pub group: Id,
    /// The user who requests.
    pub user: Id,
    /// The groups of that user.
    pub groups: FewGroups,
    /// The permissions that are requested together.
    pub request: Perm,
}

/// The groups of a requester, at most two.
#[derive(Clone, Copy, Debug, PartialEq, Eq)]
pub enum FewGroups {
    /// No group.
    None,
    /// One group.
    One(Id),
    /// Two groups.
    Two(Id, Id),
}
