//! What shows, for one right, which ALLOWs of a list exceed the bound.
ghost use Rattle.acl_contain.specs.internal.LimitTables.{HaveTables};

use acl_normal::internal::Placing;

/// What shows, for one right, whether an ALLOW of the list exceeds the bound.
#[derive(Drop)]
pub(crate) struct Limits {
    /// For each principal, the first DENY of the list and the first ACE of the bound that concern it.
    pub(crate) placings: Vec<Placing>,
    /// By place in the bound, one more than the greatest place of the first DENY of the list among those principals
    /// that the bound denies the right before, and that may overlap with a user.
    pub(crate) users: Vec<usize>,
    /// The same for those that may overlap with a principal that is no user.
    pub(crate) others: Vec<usize>,
    ghost tables: { HaveTables placings.items users.items others.items },
}
