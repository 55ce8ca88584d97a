//! Whether whoever gets one right from a list also gets some others.
ghost use Rattle.std.specs.Prelude.{◌↔◌, ◌≡◌, IsNone};
ghost use Rattle.acl_normal.specs.Common.{ace, aces_in, false, IfOk, IfSome};
ghost use Rattle.acl_perm.specs.Situation.{IsSituation};
ghost use Rattle.acl_normal.specs.Difference.{situation_of};
ghost use Rattle.acl_contain.specs.Implied.{Implies, IsFirstMissing};
ghost use Rattle.acl_contain.specs.internal.RightReplaced.{all_replaced, replaced};

use acl_nfs4::{AceRef, Acl, AclView};
use acl_normal::Difference;
use acl_normal::internal::{Direction, collect, searched_among};
use acl_perm::{Mask, Right};
use std::alloc::{AllocError, Global};

/// Returns the first of the small situations of a list in which the list grants a right and denies one of some others,
/// with the lowest of the others that it denies there; or `None` if in every situation in which the list grants the
/// right, it grants each of the others (this library's own, over RFC 8881, section 6.2.1). So it answers whether
/// everybody who may write may also read. In the result, `bit` is the right that the list denies, and `first_grants` is
/// false. It takes time and memory as [`acl_normal::compare`] does. Fails if memory runs out.
///
/// ```rust
/// let list = parse_text(alloc, b"ALLOW - WRITE_DATA bob\nALLOW - READ_DATA|WRITE_DATA OWNER@\n")?;
/// let write = Right::new(1).ok_or("1 is the number of WRITE_DATA")?;
/// let missing = implies(alloc, &list, write, Mask::READ_DATA)?.ok_or("whoever may write may read")?;
/// assert!(rt; missing.user.as_slice() == b"bob".as_slice() && missing.bit == Mask::READ_DATA);
/// ```
pub fn implies(
    alloc: Global,
    list: &Acl,
    right: Right,
    others: Mask,
) -> Result<Option<Difference>, AllocError>
    // None if and only if whoever is granted the right is granted each of the others.
    ensures implied { IfOk result (λ r. IsNone r ↔ Implies list.now right.bit others.bits) }
    // Otherwise the first small situation in which the list grants the right and denies one of the others, and the
    // lowest of the others that it denies there.
    ensures first { IfOk result (λ r. IfSome r (λ d. IsFirstMissing list.now right.bit others.bits
        (situation_of d) d.bit.bits)) }
    // Its names are names of an object and a requester.
    ensures requester { IfOk result (λ r. IfSome r (λ d. IsSituation (situation_of d))) }
    ensures denied { IfOk result (λ r. IfSome r (λ d. d.first_grants ≡ false)) }
{
    implies_of_view(alloc, &list.view(), right, others)
}

// Answers as `implies` does, for the list of a view. It copies no who.
fn implies_of_view(
    alloc: Global,
    list: &AclView<'_>,
    right: Right,
    others: Mask,
) -> Result<Option<Difference>, AllocError>
    ensures implied { IfOk result (λ r. IsNone r ↔ Implies list.now right.bit others.bits) }
    ensures first { IfOk result (λ r. IfSome r (λ d. IsFirstMissing list.now right.bit others.bits
        (situation_of d) d.bit.bits)) }
    ensures requester { IfOk result (λ r. IfSome r (λ d. IsSituation (situation_of d))) }
    ensures denied { IfOk result (λ r. IfSome r (λ d. d.first_grants ≡ false)) }
{
    let aces = collect(alloc, list)?;
    let replaced = all_replaced(alloc, &aces, right, others)?;
    let found = searched_among(alloc, Direction::Over, &replaced, &aces)?;
    Ok(as_denied(found))
}

// The ACEs of a list that grants each of the others where the given list grants the right, and nothing else.
fn all_replaced<'a>(
    alloc: Global,
    list: &[AceRef<'a>],
    right: Right,
    others: Mask,
) -> Result<Vec<AceRef<'a>>, AllocError>
    ensures { IfOk result (λ aces. aces_in aces.items
        ≡ all_replaced right.bit others.bits (aces_in list.now)) }
{
    let mut aces = Vec::with_capacity(alloc, list.len())?;
    for item in list {
        aces.push(replaced(*item, right, others))?;
    }
    Ok(aces)
}

// The ACE with the other rights if it has the right, and else without rights.
fn replaced<'a>(item: AceRef<'a>, right: Right, others: Mask) -> AceRef<'a>
    ensures { ace result ≡ replaced right.bit others.bits (ace item.entry) }
{
    let mask = if item.mask.has(right) {
        others
    } else {
        Mask::NONE
    };
    AceRef { mask, ..item }
}

// The same situation and right, which the list of an implication denies.
fn as_denied(found: Option<Difference>) -> Option<Difference>
    ensures none { IsNone result ↔ IsNone found }
    ensures some { IfSome result (λ d. IfSome found (λ e. (situation_of d ≡ situation_of e)
        × (d.bit ≡ e.bit) × (d.first_grants ≡ false))) }
{
    let mut denied = found?;
    denied.first_grants = false;
    Some(denied)
}
