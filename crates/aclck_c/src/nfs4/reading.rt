//! Lists of bytes.
ghost use Rattle.acl_nfs4.specs.Spelling.{Xdr};
ghost use Rattle.aclck_c.specs.Common.{IfErr, IfOk, profile_of, IsListFailure};

use crate::failure::Failure;
use crate::refusal::Refusal;
use acl_nfs4::{Acl, AclView};
use acl_perm::Profile;
use std::alloc::Global;

/// Returns the list that all of the bytes spell. Fails with the fault of the bytes, as the fault of the first or only
/// list of the call, or if memory runs out.
pub(crate) fn list_of(alloc: Global, bytes: &[u8], profile: Profile) -> Result<Acl, Failure>
    ensures ok { IfOk result (λ list. Xdr (profile_of profile) list bytes.now) }
    ensures err { IfErr result (IsListFailure (profile_of profile) bytes.now 0) }
{
    let view = AclView::parse_whole_with(bytes, profile)?;
    Ok(Acl::from_view(alloc, &view)?)
}

/// Returns the list that all of the bytes spell. Fails as `list_of` does, but the fault is that of the second list of
/// the call.
pub(crate) fn second_list_of(alloc: Global, bytes: &[u8], profile: Profile) -> Result<Acl, Failure>
    ensures ok { IfOk result (λ list. Xdr (profile_of profile) list bytes.now) }
    ensures err { IfErr result (IsListFailure (profile_of profile) bytes.now 1) }
{
    match AclView::parse_whole_with(bytes, profile) {
        Ok(view) => Ok(Acl::from_view(alloc, &view)?),
        Err(fault) => Err(Failure::Refused(Refusal::in_list(fault).of_second())),
    }
}
