//! The normal form by `MergedRows`: one key after the other is emitted, and `MergedRows::is_free` says which keys are
//! free.
ghost use Rattle.std.specs.Prelude.{◌≡◌, ◌≢◌};
ghost use Rattle.acl_normal.specs.Common.{[], ace, aces_in, column, false, has_bit, IfOk, is_free, IsNormalFormOf, IsOk, kind_eq, nothing_left, option_map, ℕ};
ghost use Rattle.acl_normal.specs.internal.Best.{HasRowColumns};
ghost use Rattle.acl_normal.specs.Keys.{ace_key};
ghost use Rattle.acl_normal.specs.internal.emit.Short.{IsFirstLeft};

use super::emission::better;
use super::normal_form::{aces_of, list_of};
use crate::mask_rights::alone;
use crate::merged::MergedRows;
use acl_nfs4::{AceRef, Acl};
use acl_perm::internal::Bit;
use acl_perm::{Kind, Mask};
use std::alloc::{AllocError, Global};

/// Returns the normal form of a list, as [`crate::normalize`] does, but looks at each key before it emits one. Its time
/// grows with the square of the number of ACEs. Fails if memory runs out.
pub fn normalize_by_rows(alloc: Global, source: &Acl) -> Result<Acl, AllocError>
    ensures form { IfOk result (λ form. IsNormalFormOf source.now form) }
    ensures empty { source.now ≡ [] → IsOk result }
{
    if source.is_empty() {
        return Ok(Acl::new(alloc));
    }
    let aces = aces_of(alloc, source)?;
    let mut rows = MergedRows::new(alloc, source)?;
    let mut form = Vec::new(alloc);
    // The label names the loop for its proof.
    'emitted: while let Some(first) = least(&rows, &aces) {
        form.push(first)?;
        rows.emit(first.principal(), first.mask);
    }
    list_of(alloc, &form)
}

// The ACE that comes first: of the keys that are free on some right in what is left, it has the least. The ACEs are
// those of what is left, but may have other rights.
fn least<'a>(rows: &MergedRows<'_>, aces: &[AceRef<'a>]) -> Option<AceRef<'a>>
    requires outline { nothing_left rows.now ≡ nothing_left (aces_in aces.now) }
    requires columns { HasRowColumns rows.now }
    ensures { IsFirstLeft rows.now (option_map ace result) }
{
    let mut best: Option<AceRef<'a>> = None;
    for item in aces {
        best = better(best, item, free_bits(rows, item));
    }
    best
}

// The rights on which the key of the ACE is free.
fn free_bits(rows: &MergedRows<'_>, item: &AceRef<'_>) -> Mask
    requires { HasRowColumns rows.now }
    ensures { (bit : ℕ) → has_bit result.bits bit
        ≡ is_free (column rows.now bit) (ace_key (ace item.now)) }
{
    let mut free = Mask::NONE;
    for bit in 0..Bit::COUNT {
        free = free.union(own_right(rows, item, Bit { bit }));
    }
    free
}

// The right if the key of the ACE is free on it, and otherwise none.
fn own_right(rows: &MergedRows<'_>, item: &AceRef<'_>, right: Bit) -> Mask
    requires { HasRowColumns rows.now }
    ensures here { has_bit result.bits right.bit
        ≡ is_free (column rows.now right.bit) (ace_key (ace item.now)) }
    ensures others { (bit : ℕ) → bit ≢ right.bit → has_bit result.bits bit ≡ false }
{
    if has_free(rows, item, right) {
        return alone(right);
    }
    Mask::NONE
}

fn has_free(rows: &MergedRows<'_>, item: &AceRef<'_>, right: Bit) -> bool
    requires { HasRowColumns rows.now }
    ensures { result ≡ is_free (column rows.now right.bit) (ace_key (ace item.now)) }
{
    let whom = item.principal();
    match rows.rest.source(whom, right) {
        None => false,
        Some((kind, _place)) => {
            if is_same_kind(kind, item.kind) {
                return rows.is_free(whom, alone(right));
            }
            false
        }
    }
}

fn is_same_kind(kind: Kind, other: Kind) -> bool
    ensures { result ≡ kind_eq kind other }
{
    kind == other
}
