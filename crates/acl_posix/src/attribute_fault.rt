//! Why the bytes of an extended attribute are not an ACL.

use crate::fault::AclFault;
use crate::raw_entry::EntryFault;
use thiserror::Error;

/// Why the bytes of an extended attribute are not an ACL. Places count from 0.
#[derive(Clone, Copy, Debug, PartialEq, Eq, Error)]
pub enum AttributeFault {
    /// There are fewer than four bytes, or the bytes after the first four are not eight for each entry.
    #[error("Size")]
    Size,
    /// The first four bytes are not those of version 2.
    #[error("Version")]
    Version,
    /// The numbers of the entry at this place are not those of an entry.
    #[error("{1} at entry {0}")]
    Entry(usize, EntryFault),
    /// The tag type of the entry at this place is before that of the entry before it, in canonical order.
    #[error("Order at entry {0}")]
    Order(usize),
    /// The entries are not a valid ACL, or memory ran out.
    #[error("{0}")]
    Acl(AclFault),
}
