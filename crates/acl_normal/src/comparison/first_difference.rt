//! The comparison of two lists: the first small situation in which one grants a right that the other denies.
ghost use Rattle.std.specs.Prelude.{◌↔◌, ◌≡◌, IsNone};
ghost use Rattle.acl_normal.specs.Common.{aces_in, all_rights, IfOk, IfSome, IsOk, SameGrants, two_lists};
ghost use Rattle.acl_normal.specs.Difference.{situation_of};
ghost use Rattle.acl_normal.specs.SmallSets.{IsFirstDifference, TellsApart};
ghost use Rattle.acl_normal.specs.internal.Tidy.{HasNames};
ghost use Rattle.acl_normal.specs.internal.comparison.TwoLists.{IsSearched};

use super::Difference;
use super::direction::Direction;
use super::list_pair::ListPair;
use super::mentioned_principals::mentioned;
use crate::normal_form::SHORT;
use crate::reduce::collected::collect;
use crate::short_form::have_one_form;
use acl_nfs4::{AceRef, Acl, AclView};
use std::alloc::{AllocError, Global};

/// Returns the first of the small situations of two lists in which one grants a right and the other does not, or `None`
/// if both grant the same in every situation (this library's own, over RFC 8881, section 6.2.1). In a small situation,
/// everyone matches, and none, one or two of the principals that the lists mention. For each right that either list
/// has, it takes time that is nearly linear in the ACEs. It takes memory for a few numbers per ACE. Fails if memory
/// runs out.
///
/// ```rust
/// let first = parse_text(alloc, b"ALLOW - READ_DATA EVERYONE@")?;
/// let second = parse_text(alloc, b"DENY - READ_DATA bob\nALLOW - READ_DATA EVERYONE@\n")?;
/// let difference = compare(alloc, &first, &second)?.ok_or("the lists grant the same")?;
/// let names = difference.requester_names();
/// let (object, requester) = (difference.object(), names.requester());
/// let rights = decided(second.aces(), &object, &requester, Mask::from(difference.right()));
/// assert!(rt; rights.denied == Mask::READ_DATA);
/// ```
pub fn compare(alloc: Global, first: &Acl, second: &Acl) -> Result<Option<Difference>, AllocError>
    // None if and only if both lists grant the same.
    ensures same { IfOk result (λ r. IsNone r ↔ SameGrants all_rights first.now second.now) }
    // Otherwise the first small situation in which they do not, the lowest right on which they differ there, and what
    // the first list grants.
    ensures first { IfOk result (λ r. IfSome r (λ d. IsFirstDifference first.now second.now
        (situation_of d) d.bit.bits d.first_grants)) }
    // Its names are names of an object and a requester, to whom one list grants that right and the other does not.
    ensures requester { IfOk result (λ r. IfSome r (λ d. TellsApart first.now second.now
        (situation_of d) d.bit.bits d.first_grants)) }
    // For equal lists memory never runs out.
    ensures equal { first.now ≡ second.now → IsOk result }
{
    if *first == *second {
        return Ok(None);
    }
    compare_views(alloc, &first.view(), &second.view())
}

/// Compares the lists of two views, as [`compare`] compares two owned lists: returns the first small situation in which
/// one list grants a right and the other does not, or `None` if both grant the same in every situation. It copies
/// neither list. Unlike `compare`, it does not look first whether the lists are equal, so that it may run out of memory
/// for equal lists too.
pub fn compare_views(
    alloc: Global,
    first: &AclView<'_>,
    second: &AclView<'_>,
) -> Result<Option<Difference>, AllocError>
    ensures same { IfOk result (λ r. IsNone r ↔ SameGrants all_rights first.now second.now) }
    ensures first { IfOk result (λ r. IfSome r (λ d. IsFirstDifference first.now second.now
        (situation_of d) d.bit.bits d.first_grants)) }
    ensures requester { IfOk result (λ r. IfSome r (λ d. TellsApart first.now second.now
        (situation_of d) d.bit.bits d.first_grants)) }
{
    let list = collect(alloc, first)?;
    let other = collect(alloc, second)?;
    // For two short lists that grant the same, this takes less time than the search takes to find no difference.
    if list.len() <= SHORT && other.len() <= SHORT && have_one_form(alloc, &list, &other)? {
        Ok(None)
    } else {
        searched_among(alloc, Direction::Either, &list, &other)
    }
}

/// Returns the first small situation in which two lists differ in a direction. The lists are borrowed for the same
/// lifetime, because one value holds both.
pub fn searched<'a>(
    alloc: Global,
    direction: Direction,
    first: &AclView<'a>,
    second: &AclView<'a>,
) -> Result<Option<Difference>, AllocError>
    ensures { IfOk result (IsSearched (two_lists direction first.now second.now)) }
{
    let list = collect(alloc, first)?;
    let other = collect(alloc, second)?;
    searched_among(alloc, direction, &list, &other)
}

/// Returns the first small situation in which two lists of ACEs differ in a direction.
pub fn searched_among<'a>(
    alloc: Global,
    direction: Direction,
    list: &[AceRef<'a>],
    other: &[AceRef<'a>],
) -> Result<Option<Difference>, AllocError>
    requires list { HasNames (aces_in list.now) }
    requires other { HasNames (aces_in other.now) }
    ensures { IfOk result (IsSearched
        (two_lists direction (aces_in list.now) (aces_in other.now))) }
{
    let mentions = mentioned(alloc, list, other)?;
    let pair = ListPair::of(direction, list, other, &mentions);
    let found = pair.first_set(alloc)?;
    pair.difference_of(alloc, found)
}
