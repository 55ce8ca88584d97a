//! Whether two lists grant the same.
ghost use Rattle.std.specs.Prelude.{◌↔◌};
ghost use Rattle.acl_normal.specs.Common.{all_rights, IfOk, IsTrue, SameGrants};

use acl_nfs4::AclView;
use acl_normal::compare_views;
use acl_normal::internal::{SHORT, collect, have_one_form};
use std::alloc::{AllocError, Global};

/// Returns whether the lists of two views grant the same in every situation, as [`acl_normal::compare_views`] does, but
/// names no situation in which they do not. So it takes less time for two short lists that differ. It copies neither
/// list, and does not look first whether the lists are equal, so that it may run out of memory for equal lists too.
/// Fails if memory runs out.
///
/// ```rust
/// let first = parse_text(alloc, b"DENY - WRITE_DATA bob\nALLOW - READ_DATA OWNER@\n")?;
/// let second = parse_text(alloc, b"ALLOW - READ_DATA OWNER@\n")?;
/// assert!(rt; same_views(alloc, &first.view(), &second.view())?);
/// ```
pub fn same_views(
    alloc: Global,
    first: &AclView<'_>,
    second: &AclView<'_>,
) -> Result<bool, AllocError>
    ensures answer { IfOk result (λ answer. IsTrue answer
        ↔ SameGrants all_rights first.now second.now) }
{
    if first.len() > SHORT || second.len() > SHORT {
        let difference = compare_views(alloc, first, second)?;
        return Ok(difference.is_none());
    }
    let list = collect(alloc, first)?;
    let other = collect(alloc, second)?;
    have_one_form(alloc, &list, &other)
}
