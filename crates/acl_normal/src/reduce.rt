//! A list without the rights that play no part.
ghost use Rattle.std.specs.Prelude.{◌<◌, ◌≡◌};
ghost use Rattle.acl_normal.specs.Common.{aces_in, aces_with, AreRowNumbers, full, IfOk, IsAccepted, IsReducedOf, length, vec_len};
ghost use Rattle.acl_normal.specs.internal.Limits.{list_limit};
ghost use Rattle.acl_normal.specs.internal.rows.Remaining.{HasNumbers, reduced_aces};

pub(crate) mod collected;
pub(crate) mod needless;
pub(crate) mod shadowed_rights;

use crate::reduce::collected::collect;
use crate::reduce::needless::drop_needless;
use crate::reduce::shadowed_rights::first_masks;
use crate::rows::numbers::row_numbers;
use crate::rows::remaining::{Reduced, Remaining};
use acl_nfs4::{AceRef, AclView};
use acl_perm::Mask;
use std::alloc::{AllocError, Global};

/// Returns the list without the rights that no situation needs, ready to be emitted.
pub(crate) fn remaining<'a>(alloc: Global, list: &AclView<'a>) -> Result<Remaining<'a>, AllocError>
    ensures { IfOk result (λ rows. IsReducedOf list.now rows) }
{
    Remaining::of(alloc, reduced_list(alloc, list)?)
}

/// Returns the list without the rights that no situation needs, with the rows of its principals.
pub fn reduced_list<'a>(alloc: Global, list: &AclView<'a>) -> Result<Reduced<'a>, AllocError>
    ensures few { IfOk result (λ r. vec_len r.aces < list_limit) }
    ensures places { IfOk result (λ r. vec_len r.masks ≡ vec_len r.aces) }
    ensures rows { IfOk result HasNumbers }
    ensures left { IfOk result (λ r. IsReducedOf list.now (reduced_aces r)) }
{
    let aces = collect(alloc, list)?;
    let numbers = row_numbers(alloc, &aces)?;
    let masks = reduced_masks(alloc, &aces, &numbers.rows)?;
    Ok(Reduced {
        aces,
        masks,
        numbers,
    })
}

/// Returns, by place, the masks of the ACEs without the rights that play no part. `rows` has the row of the principal,
/// by place.
pub(crate) fn reduced_masks(
    alloc: Global,
    aces: &[AceRef<'_>],
    rows: &[usize],
) -> Result<Vec<Mask>, AllocError>
    requires accepted { IsAccepted full (aces_in aces.now) }
    requires rows { AreRowNumbers (aces_in aces.now) rows.now }
    ensures places { IfOk result (λ masks. vec_len masks ≡ length aces.now) }
    ensures reduced { IfOk result (λ masks. IsReducedOf (aces_in aces.now)
        (aces_with aces.now masks.items)) }
{
    let mut masks = first_masks(alloc, aces, rows)?;
    drop_needless(aces, &mut masks);
    Ok(masks)
}
