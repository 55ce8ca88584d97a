//! Lists of ACEs that are built from rows.

use acl_nfs4::{AceRef, Acl, PushFault};
use acl_perm::{Flags, Kind, Mask};
use std::alloc::Global;

/// An ACE as its kind, flags, mask and who.
pub type AceRow = (Kind, u32, u32, &'static [u8]);

pub const ALLOW: Kind = Kind::Allow;

pub const DENY: Kind = Kind::Deny;

/// Returns the ACE of a row, or `None` if the row has a bit that is no flag or no right.
pub fn ace_of((kind, flags, mask, who): (Kind, u32, u32, &[u8])) -> Option<AceRef<'_>> {
    Some(AceRef {
        kind,
        flags: Flags::new(flags)?,
        mask: Mask::new(mask)?,
        who,
    })
}

/// Makes the list of these rows. It leaves out a row that has no ACE, and fails as `push` does.
pub fn built(alloc: Global, rows: &[AceRow]) -> Result<Acl, PushFault> {
    let mut list = Acl::new(alloc);
    for row in rows {
        if let Some(ace) = ace_of(*row) {
            list.push(ace)?;
        }
    }
    Ok(list)
}

/// Makes a list that has the ACE of a row this many times. Fails as `push` does.
pub fn repeated(alloc: Global, count: u32, row: AceRow) -> Result<Acl, PushFault> {
    let mut list = Acl::new(alloc);
    if let Some(ace) = ace_of(row) {
        for _ in 0..count {
            list.push(ace)?;
        }
    }
    Ok(list)
}
