//! The most that a list may keep under a bound, on the object and on everything that will ever be created below it.
ghost use Rattle.std.specs.Prelude.{◌↔◌, ◌≡◌};
ghost use Rattle.acl_normal.specs.Common.{Ace, IfOk, IsAccepted, List, aces_in, all_rights, full};
ghost use Rattle.acl_contain.specs.EveryPath.{AtMostAt, AtMostEverywhere, IsGreatestEverywhere};
ghost use Rattle.acl_contain.specs.Removal.{IsGreatestWithin, IsRemoval};
ghost use Rattle.acl_contain.specs.internal.InPlace.{path_of};

use super::short_path::ShortPath;
use super::{without_excess, written};
use acl_nfs4::{AceRef, Acl, AclView};
use acl_normal::internal::collect;
use std::alloc::{AllocError, Global};

/// Takes rights out of the ALLOWs of a list until, on the object and on everything that will ever be created below it,
/// the list grants at most what a bound grants there, and returns the list. Of all lists that are made in this way, it
/// is the one that keeps most (this library's own, over RFC 8881, section 6.2.1, and its table of inheritance). Where
/// `restricted` leaves the ALLOWs that take no part on the object, this call looks at the new objects on which they do.
/// It takes time that is nearly linear in the bytes of both lists. Fails if memory runs out.
///
/// ```rust
/// let list = parse_text(alloc, b"ALLOW FILE|INHERITONLY READ_DATA|WRITE_DATA EVERYONE@\n")?;
/// let bound = parse_text(alloc, b"ALLOW FILE READ_DATA EVERYONE@\n")?;
/// assert!(rt; restricted(alloc, &list, &bound)? == list);
/// let kept = restricted_everywhere(alloc, &list, &bound)?;
/// assert!(rt; kept == parse_text(alloc, b"ALLOW FILE|INHERITONLY READ_DATA EVERYONE@\n")?);
/// ```
pub fn restricted_everywhere(alloc: Global, list: &Acl, bound: &Acl) -> Result<Acl, AllocError>
    // The list without rights of its ALLOWs, which at every path grants at most what the list and the bound grant.
    ensures removal { IfOk result (IsRemoval list.now) }
    ensures at_most_list { IfOk result (λ kept. AtMostEverywhere kept list.now) }
    ensures at_most_bound { IfOk result (λ kept. AtMostEverywhere kept bound.now) }
    // Each other such list is made of the result by taking out more, and at every path grants at most what the result
    // grants.
    ensures greatest { IfOk result (IsGreatestEverywhere list.now bound.now) }
    ensures most { IfOk result (λ kept. (other : List Ace) → IsRemoval list.now other
        → AtMostEverywhere other bound.now → AtMostEverywhere other kept) }
    // The list itself if and only if it grants at most what the bound grants at every path.
    ensures unchanged { IfOk result (λ kept. (kept ≡ list.now) ↔ AtMostEverywhere list.now bound.now) }
{
    restricted_of_views(alloc, &list.view(), &bound.view())
}

// Answers as `restricted_everywhere` does, for the lists of two views.
fn restricted_of_views(
    alloc: Global,
    list: &AclView<'_>,
    bound: &AclView<'_>,
) -> Result<Acl, AllocError>
    ensures { IfOk result (IsGreatestEverywhere list.now bound.now) }
{
    let aces = collect(alloc, list)?;
    let others = collect(alloc, bound)?;
    let kept = kept_everywhere(alloc, &aces, &others)?;
    written(alloc, &kept)
}

// The ACEs of the list without the rights that exceed the bound at one of the five paths.
fn kept_everywhere<'a>(
    alloc: Global,
    aces: &[AceRef<'a>],
    others: &[AceRef<'a>],
) -> Result<Vec<AceRef<'a>>, AllocError>
    requires list { IsAccepted full (aces_in aces.now) }
    requires bound { IsAccepted full (aces_in others.now) }
    ensures { IfOk result (λ kept. IsGreatestEverywhere (aces_in aces.now) (aces_in others.now)
        (aces_in kept.items)) }
{
    let kept = kept_at(alloc, ShortPath::Object, aces, others)?;
    let kept = kept_at(alloc, ShortPath::NewFile, &kept, others)?;
    let kept = kept_at(alloc, ShortPath::NewDirectory, &kept, others)?;
    let kept = kept_at(alloc, ShortPath::FileInDirectory, &kept, others)?;
    kept_at(alloc, ShortPath::DirectoryInDirectory, &kept, others)
}

// The ACEs of the list without the rights that exceed the bound at the path.
fn kept_at<'a>(
    alloc: Global,
    path: ShortPath,
    aces: &[AceRef<'a>],
    others: &[AceRef<'a>],
) -> Result<Vec<AceRef<'a>>, AllocError>
    requires list { IsAccepted full (aces_in aces.now) }
    requires bound { IsAccepted full (aces_in others.now) }
    ensures greatest { IfOk result (λ kept. IsGreatestWithin
        (λ cut. AtMostAt cut (aces_in others.now) (path_of path)) (aces_in aces.now)
        (aces_in kept.items)) }
    ensures accepted { IfOk result (λ kept. IsAccepted full (aces_in kept.items)) }
{
    let shown = path.list(alloc, aces)?;
    let limit = path.list(alloc, others)?;
    let left = without_excess(alloc, &shown, &limit)?;
    let mut kept = Vec::with_capacity(alloc, aces.len())?;
    for (place, item) in aces.iter().enumerate() {
        kept.push(path.put_back(*item, left[place]))?;
    }
    Ok(kept)
}
