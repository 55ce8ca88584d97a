//! The ACEs of a list in a `Vec`, so that they can be reached by their places.
ghost use Rattle.std.specs.Prelude.{◌≡◌};
ghost use Rattle.acl_normal.specs.Common.{aces_in, full, IfOk, IsAccepted};

use acl_nfs4::{AceRef, AclView};
use std::alloc::{AllocError, Global};

/// Returns the ACEs of the list, which borrow its bytes.
pub fn collect<'a>(alloc: Global, source: &AclView<'a>) -> Result<Vec<AceRef<'a>>, AllocError>
    ensures aces { IfOk result (λ aces. aces_in aces.items ≡ source.now) }
    ensures accepted { IsAccepted full source.now }
{
    let items = source.aces();
    let mut aces = Vec::with_capacity(alloc, source.len())?;
    for ace in items {
        aces.push(ace)?;
    }
    Ok(aces)
}
