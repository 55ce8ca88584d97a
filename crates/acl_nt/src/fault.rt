//! Why bytes are not a descriptor.
ghost use Rattle.std.specs.Prelude.{◌≡◌};
ghost use Rattle.acl_nt.specs.Faults.{nt_fault_at};

use std::alloc::AllocError;
use thiserror::Error;

/// What is wrong with a field of a value.
#[derive(Clone, Copy, Debug, PartialEq, Eq, Error)]
pub enum NtReason {
    /// Memory ran out. The place has no meaning.
    #[error("Memory")]
    Memory,
    /// The field is cut short.
    #[error("Truncated")]
    Truncated,
    /// The version of the attribute is not 1 to 4, or the second word is another number.
    #[error("Version")]
    Version,
    /// The pointer is null.
    #[error("Pointer")]
    Pointer,
    /// The byte is none of a description, which has at most 255 printable characters of ASCII.
    #[error("Description")]
    Description,
    /// The revision of the descriptor is not 1.
    #[error("Revision")]
    Revision,
    /// The descriptor is not self-relative.
    #[error("NotSelfRelative")]
    NotSelfRelative,
    /// The descriptor has no DACL, not even a NULL DACL.
    #[error("NoDacl")]
    NoDacl,
    /// The offset lies in the header, is not a multiple of 4, is greater than the length of the value, or is that of a
    /// SACL that the control bits do not announce.
    #[error("Offset")]
    Offset,
    /// The revision of the SID is not 1.
    #[error("SidRevision")]
    SidRevision,
    /// The SID has more than 15 sub-authorities.
    #[error("SidCount")]
    SidCount,
    /// The revision of the ACL is neither 2 nor 4.
    #[error("AclRevision")]
    AclRevision,
    /// A field of the ACL that must be zero is not.
    #[error("AclSbz")]
    AclSbz,
    /// The size of the ACL is less than that of its header, or goes beyond the value.
    #[error("AclSize")]
    AclSize,
    /// The ACL has more than 2,000 ACEs.
    #[error("AceCount")]
    AceCount,
    /// The type of the ACE is one that the reader refuses, or the ACE would be left out of a part although it takes the
    /// owner's own rights.
    #[error("AceType")]
    AceType,
    /// The ACE has a flag that has no meaning.
    #[error("AceFlags")]
    AceFlags,
    /// The size of the ACE is less than 16, is not a multiple of 4, or goes beyond the ACL.
    #[error("AceSize")]
    AceSize,
    /// The ACE takes part, and has a generic right that stands for more than its other rights.
    #[error("Generic")]
    Generic,
}

/// The first field that is refused, with the place at which it is.
#[derive(Clone, Copy, Debug, PartialEq, Eq, Error)]
#[error("{reason} at byte {offset}")]
pub struct NtFault {
    /// The place of the field. The value's first byte is at 0.
    pub offset: u64,
    /// What is wrong with the field.
    pub reason: NtReason,
}

impl NtFault {
    pub(crate) fn new(at: usize, reason: NtReason) -> NtFault
        ensures { result ≡ nt_fault_at at reason }
    {
        NtFault {
            offset: at as u64,
            reason,
        }
    }
}

impl From<AllocError> for NtFault {
    ghost use Rattle.acl_nt.specs.Faults.{nt_memory_fault};

    ghost from_gives = { λ _ fault. fault ≡ nt_memory_fault };

    fn from(_: AllocError) -> NtFault {
        NtFault {
            offset: 0,
            reason: NtReason::Memory,
        }
    }
}
