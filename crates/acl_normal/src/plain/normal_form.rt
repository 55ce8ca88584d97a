//! The normal form by a comparison of each ACE with all others. It shares no code with `crate::normalize`.
ghost use Rattle.std.specs.Prelude.{◌≡◌};
ghost use Rattle.acl_normal.specs.Common.{[], aces_in, column, full, IfOk, IsAccepted, IsNormalFormOf, IsOk, ℕ};
ghost use Rattle.acl_normal.specs.internal.Plain.{reduced};

use super::emission::emit;
use super::reduction::{drop_needless, drop_shadowed};
use acl_nfs4::{AceRef, Acl};
use std::alloc::{AllocError, Global};

/// Returns the normal form of a list, as [`crate::normalize`] does, but in time that grows with the third power of the
/// number of ACEs. Fails if memory runs out.
pub fn normalize(alloc: Global, source: &Acl) -> Result<Acl, AllocError>
    ensures form { IfOk result (λ form. IsNormalFormOf source.now form) }
    ensures empty { source.now ≡ [] → IsOk result }
{
    if source.is_empty() {
        return Ok(Acl::new(alloc));
    }
    let needed = needed_aces(alloc, source)?;
    let form = emit(alloc, needed)?;
    list_of(alloc, &form)
}

// The ACEs with only those rights that play a part.
fn needed_aces(alloc: Global, source: &Acl) -> Result<Vec<AceRef<'_>>, AllocError>
    ensures columns { IfOk result (λ needed. (bit : ℕ)
        → column (aces_in needed.items) bit ≡ reduced (column source.now bit)) }
    ensures accepted { IsAccepted full source.now }
{
    let aces = aces_of(alloc, source)?;
    let reached = drop_shadowed(alloc, &aces)?;
    drop_needless(alloc, &reached)
}

/// Returns the ACEs of a list, which borrow its bytes.
pub(super) fn aces_of(alloc: Global, source: &Acl) -> Result<Vec<AceRef<'_>>, AllocError>
    ensures aces { IfOk result (λ aces. aces_in aces.items ≡ source.now) }
    ensures accepted { IsAccepted full source.now }
{
    let mut aces = Vec::new(alloc);
    for ace in source.aces() {
        aces.push(ace)?;
    }
    Ok(aces)
}

/// Returns the list of some ACEs.
pub(super) fn list_of(alloc: Global, aces: &[AceRef<'_>]) -> Result<Acl, AllocError>
    requires { IsAccepted full (aces_in aces.now) }
    ensures { IfOk result (λ list. list ≡ aces_in aces.now) }
{
    let mut list = Acl::new(alloc);
    for ace in aces {
        list.push_accepted(*ace)?;
    }
    Ok(list)
}
