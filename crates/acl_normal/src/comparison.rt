//! The first small situation in which two lists grant different rights, or in which one grants more than the other.
ghost use Rattle.std.specs.Prelude.{◌<◌, ◌≤◌, All, length};
ghost use Rattle.acl_normal.specs.OneRight.{IsOneRight};

pub(crate) mod columns;
mod difference_at_set;
mod differing_rights;
pub(crate) mod direction;
pub(crate) mod evaluation;
pub(crate) mod first_difference;
pub(crate) mod first_pair;
mod granted_alone;
pub(crate) mod inversions;
pub(crate) mod list_pair;
pub(crate) mod members;
pub(crate) mod mentioned_principals;
pub(crate) mod placing;
mod request_of_difference;
mod requester_names;
mod same_places;
mod search;
mod situation_names;
pub(crate) mod small_set;

use acl_perm::Mask;
pub use first_difference::{compare, compare_views};
pub use requester_names::RequesterNames;

/// A requester and an object for which one of two lists grants a right that the other denies. The groups are in the
/// order of their bytes, and the right is the lowest such right.
#[derive(Debug, Drop)]
pub struct Difference {
    /// The object's owner.
    pub owner: Vec<u8>,
    /// The object's owning group.
    pub group: Vec<u8>,
    /// The user who requests.
    pub user: Vec<u8>,
    /// The groups of that user.
    pub groups: Vec<Vec<u8>>,
    /// The right, as a set of one.
    pub bit: Mask,
    /// Whether the first list grants it. The second list grants it if and only if the first does not.
    pub first_grants: bool,
    ghost owner_named: { 0 < length owner.items },
    ghost group_named: { 0 < length group.items },
    ghost user_named: { 0 < length user.items },
    ghost groups_named: { All (λ g. 0 < length g.items) groups.items },
    ghost few: { length groups.items ≤ 2 },
    ghost one_right: { IsOneRight bit.bits },
}
