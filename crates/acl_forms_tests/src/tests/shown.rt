//! Whether an ACL or a list that was read has the text that a table gives.

use acl_nfs4::{Acl, Counted};
use acl_posix::PosixAcl;
use std::alloc::{AllocError, Global};
use std::test::Fail;

/// Returns whether the ACL has this text.
pub fn is_acl_shown_as(alloc: Global, acl: &PosixAcl, text: &str) -> Result<bool, Fail> {
    let mut sink = Counted::new(Vec::new(alloc));
    acl.write_canonical(&mut sink)?;
    Ok(sink.into_inner().as_slice() == text.as_bytes())
}

/// Returns whether the list has this text.
pub fn is_list_shown_as(alloc: Global, list: &Acl, text: &str) -> Result<bool, AllocError> {
    Ok(list.to_text(alloc)?.as_slice() == text.as_bytes())
}
