//! The first step of the reduction: it drops the rights that an earlier ACE of the same principal or of everyone has.
ghost use Rattle.std.specs.Prelude.{◌≡◌};
ghost use Rattle.acl_normal.specs.Common.{[], aces_in, aces_with, AreRowNumbers, column, full, IfOk, IsAccepted, IsThinned, length, unshadowed, vec_len, ℕ};

use crate::mask_rights::of_everyone;
use acl_nfs4::AceRef;
use acl_perm::Mask;
use std::alloc::{AllocError, Global};

/// Returns, by place, the rights of the ACE that no earlier ACE of the same principal or of everyone has. `rows` has
/// the row of the principal, by place.
pub(crate) fn first_masks(
    alloc: Global,
    aces: &[AceRef<'_>],
    rows: &[usize],
) -> Result<Vec<Mask>, AllocError>
    requires accepted { IsAccepted full (aces_in aces.now) }
    requires rows { AreRowNumbers (aces_in aces.now) rows.now }
    ensures places { IfOk result (λ masks. vec_len masks ≡ length aces.now) }
    ensures thinned { IfOk result (λ masks. IsThinned (aces_in aces.now)
        (aces_with aces.now masks.items)) }
    ensures columns { IfOk result (λ masks. (b : ℕ)
        → column (aces_with aces.now masks.items) b
        ≡ unshadowed [] (column (aces_in aces.now) b)) }
{
    let mut seen = vec![in alloc; Mask::NONE; aces.len()]?;
    let mut everyone = Mask::NONE;
    let mut masks = Vec::with_capacity(alloc, aces.len())?;
    for (place, ace) in aces.iter().enumerate() {
        let here = &mut seen[rows[place]];
        let active = if ace.takes_part() {
            ace.mask
        } else {
            Mask::NONE
        };
        let fresh = active.difference(here.union(everyone));
        *here = here.union(fresh);
        masks.push(fresh)?;
        everyone = everyone.union(of_everyone(*ace, fresh));
    }
    Ok(masks)
}
