//! Puts ACEs into the order of the normal form. Each time, the next ACE has the least key that no other ACE has to
//! precede.
ghost use Rattle.std.specs.Prelude.{◌&&◌, ◌∷◌, ◌≡◌};
ghost use Rattle.acl_normal.specs.Common.{[], Ace, ace, aces_in, column, flags_for, has_bit, IfOk, is_free, IsEmission, kind_eq, List, not, option_map, principal, principal_eq, principal_of, ℕ};
ghost use Rattle.std.specs.Ordering.{is_le};
ghost use Rattle.acl_normal.specs.internal.emit.Emissions.{HasOnceColumns};
ghost use Rattle.acl_normal.specs.Keys.{compare_keys, ace_key};
ghost use Rattle.acl_normal.specs.Places.{take_out, without_bits};
ghost use Rattle.acl_normal.specs.internal.Passes.{conflicts_before};
ghost use Rattle.acl_normal.specs.internal.Best.{AddsToBest, lesser};
ghost use Rattle.acl_normal.specs.internal.emit.Short.{IsFirstLeft};

use super::reduction::{active, is_same};
use acl_nfs4::AceRef;
use acl_perm::{Flags, Mask, Principal, overlaps};
use std::alloc::{AllocError, Global};

/// Returns the ACEs in the order of the normal form.
pub(super) fn emit<'a>(alloc: Global, aces: Vec<AceRef<'a>>) -> Result<Vec<AceRef<'a>>, AllocError>
    requires { HasOnceColumns (aces_in aces.items) }
    ensures { IfOk result (λ form. IsEmission (aces_in aces.entry.items) (aces_in form.items)) }
{
    let mut form = Vec::new(alloc);
    let mut left = aces;
    // The label names the loop for its proof.
    'emitted: while let Some(first) = least(&left) {
        form.push(first)?;
        left = without(alloc, &left, &first)?;
    }
    Ok(form)
}

// The ACE that comes first: of the keys that are free on some right, it has the least.
fn least<'a>(left: &[AceRef<'a>]) -> Option<AceRef<'a>>
    ensures { IsFirstLeft (aces_in left.now) (option_map ace result) }
{
    let mut best: Option<AceRef<'a>> = None;
    for item in left {
        best = better(best, item, free_bits(left, item));
    }
    best
}

/// Returns the better of the best ACE so far and one more ACE, whose key is free on the rights of a mask.
pub(super) fn better<'a>(
    best: Option<AceRef<'a>>,
    item: &AceRef<'a>,
    free: Mask,
) -> Option<AceRef<'a>>
    // The ACE in the list that is left may have other rights.
    ensures { (left : List Ace) (here : Ace) → ace_key here ≡ ace_key (ace item.now)
        → ((bit : ℕ) → has_bit free.bits bit ≡ is_free (column left bit) (ace_key here))
        → AddsToBest left here (option_map ace best.entry) (option_map ace result) }
{
    if free.bits() == 0 {
        return best;
    }
    Some(lesser(best, candidate(item, free)))
}

// The ACE with these rights, and with no flags but those that its principal needs.
fn candidate<'a>(item: &AceRef<'a>, free: Mask) -> AceRef<'a>
    ensures key { ace_key (ace result) ≡ ace_key (ace item.now) }
    ensures flags { result.flags.bits ≡ flags_for (principal_of (ace result)) }
    ensures mask { result.mask ≡ free }
{
    AceRef {
        mask: free,
        flags: flags_of(item.principal()),
        ..*item
    }
}

// The lesser of two candidates, or the first if both have the same key.
fn lesser<'a>(best: Option<AceRef<'a>>, next: AceRef<'a>) -> AceRef<'a>
    ensures { ace result ≡ lesser (option_map ace best.entry) (ace next.entry) }
{
    match best {
        None => next,
        Some(best) => { if is_first(&best, &next) { best } else { next } }
    }
}

// Returns whether the key of the first ACE is not greater.
fn is_first(first: &AceRef<'_>, second: &AceRef<'_>) -> bool
    ensures { result ≡ is_le (compare_keys (ace_key (ace first.now)) (ace_key (ace second.now))) }
{
    first.key() <= second.key()
}

// The flags that say whom an ACE names, and no others.
fn flags_of(p: Principal<'_>) -> Flags
    ensures { result.bits ≡ flags_for (principal p.entry) }
{
    match p {
        Principal::GroupNamed(_) => Flags::IDENTIFIER_GROUP,
        Principal::Owner | Principal::User(_) | Principal::Group | Principal::Everyone =>
            Flags::NONE,
    }
}

// The rights on which the key of the ACE is free.
fn free_bits(left: &[AceRef<'_>], item: &AceRef<'_>) -> Mask
    ensures { (bit : ℕ) → has_bit result.bits bit
        ≡ is_free (column (aces_in left.now) bit) (ace_key (ace item.now)) }
{
    let mut free = Mask::NONE;
    let mut blocked = Mask::NONE;
    for other in left {
        free = free.union(own_free(other, item, blocked));
        blocked = blocked.union(own_conflict(other, item));
    }
    free
}

// The rights of the other ACE if it has the key of the ACE, except those that are blocked.
#[tactic(auto, using(crate::proofs::plain::Gathered::free_alone))]
fn own_free(other: &AceRef<'_>, item: &AceRef<'_>, blocked: Mask) -> Mask
    ensures { (bit : ℕ) → has_bit result.bits bit
        ≡ (is_free (column (ace other.now ∷ []) bit) (ace_key (ace item.now))
        && not (has_bit blocked.bits bit)) }
{
    if has_key(other, item) {
        active(*other).difference(blocked)
    } else {
        Mask::NONE
    }
}

fn has_key(other: &AceRef<'_>, item: &AceRef<'_>) -> bool
    ensures { result ≡ (principal_eq (principal_of (ace other.now)) (principal_of (ace item.now))
        && kind_eq other.now.kind item.now.kind) }
{
    is_same(other.principal(), item.principal()) && other.kind == item.kind
}

// The rights on which the other ACE conflicts with the ACE.
fn own_conflict(other: &AceRef<'_>, item: &AceRef<'_>) -> Mask
    ensures { (bit : ℕ) → has_bit result.bits bit
        ≡ conflicts_before (column (ace other.now ∷ []) bit) (ace_key (ace item.now)) }
{
    if other.kind != item.kind && overlaps(other.principal(), item.principal()) {
        active(*other)
    } else {
        Mask::NONE
    }
}

// The ACEs without the rights that were emitted with the first ACE.
fn without<'a>(
    alloc: Global,
    left: &[AceRef<'a>],
    first: &AceRef<'_>,
) -> Result<Vec<AceRef<'a>>, AllocError>
    ensures { IfOk result (λ rest. aces_in rest.items
        ≡ take_out (principal_of (ace first.now)) first.now.mask.bits (aces_in left.now)) }
{
    let mut rest = Vec::new(alloc);
    for item in left {
        rest.push(remainder(item, first))?;
    }
    Ok(rest)
}

// The ACE without the rights of the first ACE if both name the same principal.
fn remainder<'a>(item: &AceRef<'a>, first: &AceRef<'_>) -> AceRef<'a>
    ensures { ace result
        ≡ without_bits (principal_of (ace first.now)) first.now.mask.bits (ace item.now) }
{
    if item.takes_part() && is_same(item.principal(), first.principal()) {
        AceRef {
            mask: item.mask.difference(first.mask),
            ..*item
        }
    } else {
        *item
    }
}
