//! A requester, and an object with its owner and group, by their ids.
ghost use Rattle.std.specs.Prelude.{◌≡◌, ◌==◌, ◌↔◌, IfSome, IsSome, IsTrue, map};
ghost use Rattle.std.specs.Fmt.{decimal};
ghost use Rattle.std.specs.List.{list_any};
ghost use Rattle.std.specs.Str.{bytes_eq};
ghost use Rattle.std.specs.Ordering.{nat_cmp};
ghost use Rattle.std.proofs.lemmas.Map.Keys.{IsStrictlySortedBy-prop};
ghost use Rattle.acl_perm.specs.Situation.{is_one_of, matches};
ghost use Rattle.acl_ids.specs.Ids.{AreRising};
ghost use Rattle.acl_prepared.specs.internal.IdsBody.{id_principal};

use crate::id_ace::IdPrincipal;

// Up to this number of groups, a look-up one by one is faster than a binary search.
const FEW: usize = 16;

/// The object of a request: the ids of its owner and its owning group.
#[derive(Clone, Copy, Debug, PartialEq, Eq)]
pub struct IdObject {
    /// The id of the owner.
    pub owner: u32,
    /// The id of the owning group.
    pub group: u32,
}

/// Who requests access: the id of a user, and the ids of the groups of that user.
#[derive(Clone, Copy, Debug)]
pub struct IdRequester<'a> {
    user: u32,
    groups: &'a [u32],
    ghost rising: { AreRising groups.now } by { IsStrictlySortedBy-prop nat_cmp groups.now },
}

impl<'a> IdRequester<'a> {
    ghost use Rattle.acl_prepared.specs.PreparedIds.{group_ids_of, id_situation, user_id_of};

    /// Makes a requester of these ids, or returns `None` if the groups do not rise: each must be greater than the one
    /// before.
    ///
    /// ```rust
    /// assert!(rt; IdRequester::new(1000, &[27, 100]).is_some());
    /// assert!(rt; IdRequester::new(1000, &[27, 27]).is_none());
    /// ```
    pub fn new(user: u32, groups: &'a [u32]) -> Option<Self>
        ensures rising { IsSome result ↔ AreRising groups.now }
        ensures user { IfSome result (λ requester. user_id_of requester ≡ user) }
        ensures groups { IfSome result (λ requester. group_ids_of requester ≡ groups.now) }
    {
        if are_rising(groups) {
            Some(IdRequester { user, groups })
        } else {
            None
        }
    }

    /// Returns whether the ACE of a principal matches the requester of an object.
    #[inline(always)]
    pub(crate) fn is_match(&self, object: IdObject, whom: IdPrincipal) -> bool
        ensures { result ≡ matches (id_situation object self.now) (id_principal whom) }
    {
        match whom {
            IdPrincipal::Owner => is_same(self.user, object.owner),
            IdPrincipal::User(id) => is_same(self.user, id),
            IdPrincipal::Group => is_among(self.groups, object.group),
            IdPrincipal::GroupNamed(id) => is_among(self.groups, id),
            IdPrincipal::Everyone => true,
        }
    }
}

// Returns whether two ids, and so their digits, are the same.
#[inline(always)]
fn is_same(first: u32, second: u32) -> bool
    ensures { result ≡ bytes_eq (decimal first) (decimal second) }
{
    first == second
}

// Returns whether an id is one of these ids, which must rise.
#[inline(always)]
fn is_among(ids: &[u32], id: u32) -> bool
    requires { AreRising ids.now }
    ensures { result ≡ is_one_of (decimal id) (map decimal ids.now) }
{
    if ids.len() > FEW {
        is_found(ids, id)
    } else {
        is_met(ids, id)
    }
}

// Returns whether each id is less than the next.
fn are_rising(ids: &[u32]) -> bool
    ensures { IsTrue result ↔ AreRising ids.now }
{
    ids.is_sorted_by(|a, b| *a < *b)
}

// Searches for the id among these ids, which must rise, by binary search.
fn is_found(ids: &[u32], id: u32) -> bool
    requires { AreRising ids.now }
    ensures { result ≡ list_any (λ g. id == g) ids.now }
{
    ids.binary_search(&id).is_ok()
}

// Searches for the id among these ids. It compares all of them, so that several are compared at once.
#[inline(always)]
fn is_met(ids: &[u32], id: u32) -> bool
    ensures { result ≡ list_any (λ g. id == g) ids.now }
{
    let mut met = false;
    for other in ids {
        met |= id == *other;
    }
    met
}
