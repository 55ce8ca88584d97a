//! The rows of the principals of a short list: for each principal the others are counted that are below it.
ghost use Rattle.std.specs.Prelude.{◌≡◌};
ghost use Rattle.acl_normal.specs.Common.{aces_in, AreRowNumbers, IfOk, map, principal, principal_of};
ghost use Rattle.acl_normal.specs.internal.rows.LowerCounts.{count_below, headed_names};

use super::heads::HeadedPrincipal;
use crate::ace_principal::whom;
use acl_nfs4::AceRef;
use std::alloc::{AllocError, Global};

/// Returns the rows. It takes time that grows with the square of the number of ACEs, and moves nothing.
pub(crate) fn rows_of_short_list(
    alloc: Global,
    aces: &[AceRef<'_>],
) -> Result<Vec<usize>, AllocError>
    ensures { IfOk result (λ rows. AreRowNumbers (aces_in aces.now) rows.items) }
{
    let named = headed_principals(alloc, aces)?;
    let principals = named.as_slice();
    let mut rows = Vec::with_capacity(alloc, principals.len())?;
    for principal in principals {
        rows.push(count_below(principals, principal))?;
    }
    Ok(rows)
}

// By place, whom the ACE names.
fn headed_principals<'a>(
    alloc: Global,
    aces: &[AceRef<'a>],
) -> Result<Vec<HeadedPrincipal<'a>>, AllocError>
    ensures { IfOk result (λ v. headed_names v.items ≡ map principal_of (aces_in aces.now)) }
{
    let mut principals = Vec::with_capacity(alloc, aces.len())?;
    for ace in aces {
        principals.push(HeadedPrincipal::new(whom(ace)))?;
    }
    Ok(principals)
}

// The number of the principals that are below one.
fn count_below(principals: &[HeadedPrincipal<'_>], than: &HeadedPrincipal<'_>) -> usize
    ensures { result ≡ count_below (principal than.now.principal) (headed_names principals.now) }
{
    let mut count = 0;
    for other in principals {
        if other.compared(than).is_lt() {
            count += 1;
        }
    }
    count
}
