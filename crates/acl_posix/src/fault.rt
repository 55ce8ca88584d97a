//! Why entries are not a valid list.

use crate::tag::Tag;
use thiserror::Error;

/// Why a list of entries is not a valid ACL (acl(5), "VALID ACLs"). Places count from 0.
#[derive(Clone, Copy, Debug, PartialEq, Eq, Error)]
pub enum AclFault {
    /// The entry at this place has the tag of an earlier entry.
    #[error("Multi at entry {0}")]
    Multi(usize),
    /// The user or group entry at this place has the tag and the id of an earlier entry.
    #[error("Duplicate at entry {0}")]
    Duplicate(usize),
    /// An entry with this tag is required, and is absent.
    #[error("Miss {}", .0.name())]
    Miss(Tag),
    /// Memory ran out.
    #[error("out of memory")]
    Memory,
}
