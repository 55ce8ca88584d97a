//! Takes out the rights that play no part. Each ACE is compared with all ACEs before or after it.

ghost use Rattle.std.specs.Prelude.{◌&&◌, ◌∷◌, ◌≡◌};
ghost use Rattle.acl_normal.specs.Common.{[], ace, aces_in, column, default, default_at, has_bit, IfOk, kind_eq, needed_keys, not, principal, principal_eq, principal_of, unshadowed, ℕ};
ghost use Rattle.acl_perm.specs.declared.kind.Kind.TheVariants.{Allow};
ghost use Rattle.acl_normal.specs.Normal.{counts};
ghost use Rattle.acl_normal.specs.internal.Best.{is_shadowed};
ghost use Rattle.acl_normal.specs.internal.Plain.{has_opposite, is_needed};

use acl_nfs4::AceRef;
use acl_perm::{Kind, Mask, Principal, overlaps};
use std::alloc::{AllocError, Global};

/// Returns the ACEs without the rights that an earlier ACE of their principal, or of everyone, has.
pub(super) fn drop_shadowed<'a>(
    alloc: Global,
    aces: &[AceRef<'a>],
) -> Result<Vec<AceRef<'a>>, AllocError>
    ensures { IfOk result (λ kept. (bit : ℕ)
        → column (aces_in kept.items) bit ≡ unshadowed [] (column (aces_in aces.now) bit)) }
{
    let mut kept = Vec::new(alloc);
    for (place, item) in aces.iter().enumerate() {
        let (before, _) = aces.split_at(place);
        let mask = item.mask.difference(shadow(before, item.principal()));
        kept.push(AceRef { mask, ..*item })?;
    }
    Ok(kept)
}

// The rights of all ACEs that name the principal, or everyone.
fn shadow(before: &[AceRef<'_>], of: Principal<'_>) -> Mask
    ensures { (bit : ℕ) → has_bit result.bits bit
        ≡ is_shadowed (principal of.entry) (aces_in before.now) bit }
{
    let mut bits = Mask::NONE;
    for item in before {
        bits = bits.union(own_shadow(item, of));
    }
    bits
}

/// Returns the ACEs without the rights that change nothing: without these rights the columns decide as before.
pub(super) fn drop_needless<'a>(
    alloc: Global,
    aces: &[AceRef<'a>],
) -> Result<Vec<AceRef<'a>>, AllocError>
    ensures { IfOk result (λ kept. (bit : ℕ) → column (aces_in kept.items) bit
        ≡ needed_keys (default (column (aces_in aces.now) bit)) (column (aces_in aces.now) bit)) }
{
    let allowed = allowed_to_everyone(aces);
    let mut kept = Vec::new(alloc);
    for (place, item) in aces.iter().enumerate() {
        let (_, later) = aces.split_at(place + 1);
        let mask = needed(item, allowed, later);
        kept.push(AceRef { mask, ..*item })?;
    }
    Ok(kept)
}

// The rights that an ACE of everyone allows and no earlier ACE of everyone denies.
fn allowed_to_everyone(aces: &[AceRef<'_>]) -> Mask
    ensures { (bit : ℕ) → has_bit result.bits bit
        ≡ kind_eq (default (column (aces_in aces.now) bit)) Allow }
{
    let mut allowed = Mask::NONE;
    let mut seen = Mask::NONE;
    for item in aces {
        allowed = allowed.union(own_allowed(item, seen));
        seen = seen.union(own_shadow(item, Principal::Everyone));
    }
    allowed
}

// The rights that the ACE allows everyone and that no earlier ACE has decided.
fn own_allowed(item: &AceRef<'_>, seen: Mask) -> Mask
    ensures { (bit : ℕ) → has_bit result.bits bit
        ≡ (kind_eq (default (column (ace item.now ∷ []) bit)) Allow
        && not (has_bit seen.bits bit)) }
{
    match item.kind {
        Kind::Allow => own_shadow(item, Principal::Everyone).difference(seen),
        Kind::Deny => Mask::NONE,
    }
}

// The rights that later ACEs of the principal can no longer decide, because this ACE names the principal or everyone.
fn own_shadow(item: &AceRef<'_>, of: Principal<'_>) -> Mask
    ensures { (bit : ℕ) → has_bit result.bits bit
        ≡ is_shadowed (principal of.entry) (ace item.now ∷ []) bit }
{
    let whom = item.principal();
    if is_same(whom, of) || is_same(whom, Principal::Everyone) {
        active(*item)
    } else {
        Mask::NONE
    }
}

// The rights of the ACE that are needed before the later ACEs, if everyone is allowed the rights in `allowed`.
fn needed(item: &AceRef<'_>, allowed: Mask, later: &[AceRef<'_>]) -> Mask
    ensures { (bit : ℕ) → has_bit result.bits bit ≡ (has_bit item.now.mask.bits bit
        && is_needed (default_at allowed.bits bit) (principal_of (ace item.now)) item.now.kind
        (column (aces_in later.now) bit)) }
{
    let opposed = item.mask.intersection(opposite(item, later));
    match (is_same(item.principal(), Principal::Everyone), item.kind) {
        (true, Kind::Allow) => item.mask,
        (true, Kind::Deny) => Mask::NONE,
        (false, Kind::Allow) => item.mask.difference(allowed).union(opposed),
        (false, Kind::Deny) => item.mask.intersection(allowed).union(opposed),
    }
}

// The rights of later ACEs of the other kind whose principal may overlap.
fn opposite(item: &AceRef<'_>, later: &[AceRef<'_>]) -> Mask
    ensures { (bit : ℕ) → has_bit result.bits bit
        ≡ has_opposite item.now.kind (principal_of (ace item.now))
        (column (aces_in later.now) bit) }
{
    let mut bits = Mask::NONE;
    for other in later {
        bits = bits.union(own_opposite(item, other));
    }
    bits
}

// The rights of the later ACE if it is of the other kind and its principal may overlap, and otherwise none.
fn own_opposite(item: &AceRef<'_>, later: &AceRef<'_>) -> Mask
    ensures { (bit : ℕ) → has_bit result.bits bit
        ≡ has_opposite item.now.kind (principal_of (ace item.now))
        (column (ace later.now ∷ []) bit) }
{
    if later.kind != item.kind && overlaps(item.principal(), later.principal()) {
        active(*later)
    } else {
        Mask::NONE
    }
}

pub(super) fn is_same(first: Principal<'_>, second: Principal<'_>) -> bool
    ensures { result ≡ principal_eq (principal first.entry) (principal second.entry) }
{
    first == second
}

/// Returns the rights of an ACE, or none if the ACE takes no part.
pub(super) fn active(item: AceRef<'_>) -> Mask
    ensures { (bit : ℕ) → has_bit result.bits bit ≡ counts bit (ace item.entry) }
{
    if item.takes_part() {
        item.mask
    } else {
        Mask::NONE
    }
}
