//! The rights of the ACEs of a list that are needed.
ghost use Rattle.acl_normal.specs.Common.{IfOk, map};
ghost use Rattle.acl_contain.specs.Needed.{AreNeeded};

use acl_nfs4::AclView;
use acl_normal::internal::reduced_list;
use acl_perm::Mask;
use std::alloc::{AllocError, Global};

/// Returns, by place, the rights of each ACE that are needed (this library's own, over RFC 8881, section 6.2.1): the
/// list whose ACEs have only these rights grants the same, and no right can be taken out of it. An ACE that takes no
/// part needs no right, and of two equal ACEs only the first does. It copies no list, and takes time that is nearly
/// linear in the bytes of the list. Fails if memory runs out.
pub fn needed_of_view(alloc: Global, list: &AclView<'_>) -> Result<Vec<Mask>, AllocError>
    ensures needed { IfOk result (λ masks.
        AreNeeded list.now (map (λ m. m.bits) masks.items)) }
{
    let reduced = reduced_list(alloc, list)?;
    Ok(reduced.masks)
}
