//! The most that a list may keep under a bound: rights are taken out of its ALLOWs.
ghost use Rattle.std.specs.Prelude.{◌↔◌, ◌++◌, ◌<◌, ◌≡◌};
ghost use Rattle.acl_normal.specs.Common.{Ace, IfOk, IsAccepted, List, ace, aces_in, all_rights, full, length, vec_len};
ghost use Rattle.acl_normal.specs.internal.Tidy.{HasNames};
ghost use Rattle.acl_eval.specs.Grant.{GrantsAtMost};
ghost use Rattle.acl_contain.specs.Removal.{IsGreatestRemoval, IsRemoval};
ghost use Rattle.acl_contain.specs.internal.Kept.{HaveKept, Lacks};
ghost use Rattle.acl_contain.specs.internal.Limits.{AreLimits, IsNaming, bound_of};
ghost use Rattle.acl_contain.specs.internal.Restriction.{IsRestricted};

pub(crate) mod everywhere;
mod excess;
mod limits;
mod named;
mod naming;
mod short_path;

use acl_nfs4::{AceRef, Acl, AclView};
use acl_normal::internal::collect;
use acl_perm::{Mask, Right};
use excess::is_excess;
use limits::Limits;
use named::Named;
use std::alloc::{AllocError, Global};

/// Takes rights out of the ALLOWs of a list until the list grants at most what a bound grants, and returns the list. Of
/// all lists that are made in this way, it is the one that keeps most (this library's own, over RFC 8881, section
/// 6.2.1). A right of an ALLOW goes if and only if the DENYs before it, and then it, grant the right to somebody whom
/// the bound denies it. It takes time that is nearly linear in the bytes of both lists. Fails if memory runs out.
///
/// ```rust
/// let list = parse_text(alloc, b"ALLOW - READ_DATA|WRITE_DATA amy\nALLOW - READ_DATA EVERYONE@\n")?;
/// let bound = parse_text(alloc, b"DENY - WRITE_DATA amy\nALLOW - READ_DATA|WRITE_DATA EVERYONE@\n")?;
/// let kept = restricted(alloc, &list, &bound)?;
/// assert!(rt; kept == parse_text(alloc, b"ALLOW - READ_DATA amy\nALLOW - READ_DATA EVERYONE@\n")?);
/// ```
pub fn restricted(alloc: Global, list: &Acl, bound: &Acl) -> Result<Acl, AllocError>
    // The list without rights of its ALLOWs, which grants at most what the list and the bound grant.
    ensures removal { IfOk result (IsRemoval list.now) }
    ensures at_most_list { IfOk result (λ kept. GrantsAtMost all_rights kept list.now) }
    ensures at_most_bound { IfOk result (λ kept. GrantsAtMost all_rights kept bound.now) }
    // Each other such list is made of the result by taking out more, and grants at most what the result grants.
    ensures greatest { IfOk result (IsGreatestRemoval list.now bound.now) }
    ensures most { IfOk result (λ kept. (other : List Ace) → IsRemoval list.now other
        → GrantsAtMost all_rights other bound.now → GrantsAtMost all_rights other kept) }
    // The list itself if and only if it grants at most what the bound grants.
    ensures unchanged { IfOk result (λ kept. (kept ≡ list.now)
        ↔ GrantsAtMost all_rights list.now bound.now) }
{
    restricted_of_views(alloc, &list.view(), &bound.view())
}

// Answers as `restricted` does, for the lists of two views.
fn restricted_of_views(
    alloc: Global,
    list: &AclView<'_>,
    bound: &AclView<'_>,
) -> Result<Acl, AllocError>
    ensures { IfOk result (IsGreatestRemoval list.now bound.now) }
{
    let aces = collect(alloc, list)?;
    let others = collect(alloc, bound)?;
    let kept = without_excess(alloc, &aces, &others)?;
    written(alloc, &kept)
}

// The ACEs of the list without the rights that exceed the bound.
fn without_excess<'a>(
    alloc: Global,
    aces: &[AceRef<'a>],
    others: &[AceRef<'a>],
) -> Result<Vec<AceRef<'a>>, AllocError>
    requires list { HasNames (aces_in aces.now) }
    requires bound { HasNames (aces_in others.now) }
    ensures { IfOk result (λ kept. IsRestricted (aces_in aces.now) (aces_in others.now)
        (aces_in kept.items)) }
{
    let named = Named::of(alloc, aces, others)?;
    let mut kept = Vec::with_capacity(alloc, aces.len())?;
    kept.extend_from_slice(aces)?;
    for bit in 0..Right::END {
        if let Some(right) = Right::new(bit) {
            let limits = Limits::of(alloc, &named, right)?;
            take_excess(&mut kept, right, aces, &named, &limits);
        }
    }
    Ok(kept)
}

// Takes a right out of the ALLOWs whose right exceeds the bound.
fn take_excess(
    kept: &mut Vec<AceRef<'_>>,
    right: Right,
    aces: &[AceRef<'_>],
    named: &Named<'_>,
    limits: &Limits,
)
    requires list { HasNames (aces_in aces.now) }
    requires bound { HasNames (bound_of named.now) }
    requires named { IsNaming (aces_in aces.now) named.now }
    requires limits { AreLimits named.now right.bit limits.now }
    requires kept { HaveKept (aces_in aces.now) (bound_of named.now) right.bit 0
        (aces_in kept.old.items) }
    ensures { HaveKept (aces_in aces.now) (bound_of named.now) right.bit (length aces.now)
        (aces_in kept.new.items) }
{
    for (place, item) in aces.iter().enumerate() {
        if is_excess(limits, item, named.list.whoms[place], place, right) {
            kept[place] = without(kept[place], right);
        }
    }
}

// The ACE without a right.
fn without<'a>(item: AceRef<'a>, right: Right) -> AceRef<'a>
    ensures { Lacks right.bit (ace item.entry) (ace result) }
{
    AceRef {
        mask: item.mask.difference(Mask::from(right)),
        ..item
    }
}

// The list of these ACEs.
pub(crate) fn written(alloc: Global, aces: &[AceRef<'_>]) -> Result<Acl, AllocError>
    requires { IsAccepted full (aces_in aces.now) }
    ensures { IfOk result (λ list. list ≡ aces_in aces.now) }
{
    let mut list = Acl::new(alloc);
    for item in aces {
        list.push_accepted(*item)?;
    }
    Ok(list)
}
