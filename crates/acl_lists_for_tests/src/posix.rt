//! POSIX ACLs that are made of texts.

use crate::memory::kept;
use acl_nfs4::PushFault;
use acl_posix::{Names, PosixAcl, PosixFile, parse};
use std::alloc::Global;

/// Returns the ACL of a short text.
pub fn acl_of(alloc: Global, text: &[u8]) -> Result<PosixAcl, PushFault> {
    let PosixFile { access, .. } = kept(parse(alloc, text, &Names::new(alloc)))?;
    Ok(access)
}
