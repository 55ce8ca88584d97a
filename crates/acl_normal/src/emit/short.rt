//! The emission of a short list: each turn looks at all that is left, so that it needs no queues and no heap.
ghost use Rattle.std.specs.Prelude.{◌≡◌};
ghost use Rattle.acl_perm.specs.Order.{kind_rank};
ghost use Rattle.acl_normal.specs.Common.{Ace, IfOk, IfSome, IsEmission, List, emitted_ace, emitted_aces, nat_cmp, option_map, principal, take_out};
ghost use Rattle.acl_normal.specs.internal.emit.Emissions.{HasOnceColumns};
ghost use Rattle.acl_normal.specs.internal.emit.Short.{AreLeftOf, IsFirstLeft, IsLeftOf, lesser_of};

use crate::emit::emission::Emitted;
use crate::normal_form::SHORT;
use crate::reduce::needless::{no_later, noted, opposite};
use acl_perm::Kind;
use std::alloc::{AllocError, Global};
use std::cmp::Ordering;

/// Emits what is left of a list: at each turn the least key that is free on some right, with all rights on which it is
/// free. It takes time that grows with the square of the number of ACEs, and leaves no rights.
pub(crate) fn drain_short<'a>(
    alloc: Global,
    left: &mut [Emitted<'a>],
) -> Result<Vec<Emitted<'a>>, AllocError>
    requires once { HasOnceColumns (emitted_aces left.old) }
    requires rows { (xs : List Ace) × AreLeftOf xs left.old }
    ensures { IfOk result (λ v. IsEmission (emitted_aces left.old) (emitted_aces v.items)) }
{
    // Rights of one ACE may be emitted at several places, so there may be more ACEs than are left.
    let mut out = Vec::with_capacity(alloc, SHORT)?;
    // The label names the loop for its proof.
    'emitted: while let Some(next) = first_of(left) {
        out.push(next)?;
        take_from(left, &next);
    }
    Ok(out)
}

/// Returns what comes first of all that is left.
fn first_of<'a>(left: &[Emitted<'a>]) -> Option<Emitted<'a>>
    requires once { HasOnceColumns (emitted_aces left.now) }
    requires rows { (xs : List Ace) × AreLeftOf xs left.now }
    ensures first { IsFirstLeft (emitted_aces left.now) (option_map emitted_ace result) }
    ensures row { (xs : List Ace) → AreLeftOf xs left.now → IfSome result (IsLeftOf xs) }
{
    let mut before = no_later();
    let mut first: Option<Emitted<'a>> = None;
    for item in left {
        // Without rights an ACE is not free, and blocks no other.
        if item.mask.bits != 0 {
            let free = item.mask.difference(opposite(before, item.key));
            if free.bits != 0 {
                first = Some(lesser(
                    first,
                    Emitted {
                        mask: free,
                        ..*item
                    },
                ));
            }
            before = noted(before, item.key, item.mask);
        }
    }
    first
}

/// Returns the one with the lesser key, or the key with the rights of both if they have one key.
fn lesser<'a>(first: Option<Emitted<'a>>, next: Emitted<'a>) -> Emitted<'a>
    requires { (xs : List Ace) × IfSome first (IsLeftOf xs) × IsLeftOf xs next }
    ensures list { emitted_ace result
        ≡ lesser_of (option_map emitted_ace first.entry) (emitted_ace next.entry) }
    ensures row { (xs : List Ace) → IfSome first.entry (IsLeftOf xs) → IsLeftOf xs next.entry
        → IsLeftOf xs result }
{
    let Some(first) = first else {
        return next;
    };
    let kinds = kinds_compared(first.key.kind, next.key.kind);
    match first.row.cmp(&next.row).then(kinds) {
        Ordering::Less => first,
        Ordering::Equal => Emitted {
            mask: first.mask.union(next.mask),
            ..first
        },
        Ordering::Greater => next,
    }
}

fn kinds_compared(first: Kind, other: Kind) -> Ordering
    ensures { result ≡ nat_cmp (kind_rank first) (kind_rank other) }
{
    first.cmp(&other)
}

/// Takes the rights of an emitted ACE from all that is left of its principal.
fn take_from(left: &mut [Emitted<'_>], gone: &Emitted<'_>)
    requires { (xs : List Ace) × AreLeftOf xs left.old × IsLeftOf xs gone.now }
    ensures list { emitted_aces left.new
        ≡ take_out (principal gone.now.key.principal) gone.now.mask.bits (emitted_aces left.old) }
    ensures rows { (xs : List Ace) → AreLeftOf xs left.old → AreLeftOf xs left.new }
{
    for place in 0..left.len() {
        let item = left[place];
        // Most ACEs are of other principals, and stay as they are.
        if item.row == gone.row {
            left[place] = Emitted {
                mask: item.mask.difference(gone.mask),
                ..item
            };
        }
    }
}
