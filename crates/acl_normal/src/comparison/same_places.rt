//! Finds, for each ACE of one list, an ACE of the other that names the same principal. Lists that are compared mostly
//! name the same principals in nearly the same order, so each search begins near the place that the last one found.
ghost use Rattle.std.specs.Prelude.{◌≡◌};
ghost use Rattle.acl_normal.specs.Common.{IfOk, IfSome, length, true};
ghost use Rattle.acl_normal.specs.internal.comparison.SamePlaces.{ArePlacesOf, HasSameWho};

use acl_nfs4::AceRef;
use std::alloc::{AllocError, Global};

// How far from the expected place an ACE is searched for.
const NEAR: usize = 32;

/// Returns, by place in the other list, the place of an ACE of the list that names the same principal. Returns `None`
/// if one of these places is not near the place after the one before.
#[tactic(auto)]
pub(crate) fn same_places(
    alloc: Global,
    list: &[AceRef<'_>],
    other: &[AceRef<'_>],
) -> Result<Option<Vec<usize>>, AllocError>
    ensures { IfOk result (λ r. IfSome r (λ v.
        ArePlacesOf list.now other.now (length other.now) v.items)) }
{
    let mut places = Vec::with_capacity(alloc, other.len())?;
    let mut expected = 0;
    for item in other {
        match place_near(list, item, expected) {
            Some(place) => {
                places.push(place)?;
                expected = place + 1;
            }
            None => return Ok(None),
        }
    }
    Ok(Some(places))
}

// The place of an ACE that names the same principal, near the expected place.
fn place_near(list: &[AceRef<'_>], item: &AceRef<'_>, expected: usize) -> Option<usize>
    ensures { IfSome result (HasSameWho list.now item.now) }
{
    if is_at(list, item, expected) {
        return Some(expected);
    }
    for place in expected.saturating_sub(NEAR)..expected.saturating_add(NEAR) {
        if is_at(list, item, place) {
            return Some(place);
        }
    }
    None
}

// Returns whether there is an ACE at the place, and it names the same principal.
fn is_at(list: &[AceRef<'_>], item: &AceRef<'_>, place: usize) -> bool
    ensures { result ≡ true → HasSameWho list.now item.now place }
{
    match list.get(place) {
        // ACEs with the same flags and the same who name the same principal.
        Some(there) => there.flags == item.flags && there.who == item.who,
        None => false,
    }
}
