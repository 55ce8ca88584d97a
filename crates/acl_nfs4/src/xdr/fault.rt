//! Why bytes are not a list, and where.
ghost use Rattle.std.specs.Prelude.{◌≡◌};

use std::alloc::AllocError;
use std::fmt;
use thiserror::Error;

/// What is wrong with a field.
#[derive(Clone, Copy, Debug, PartialEq, Eq, Error)]
pub enum Reason {
    /// The bytes end before the end of the field.
    Truncated,
    /// The list would have more than 65,536 ACEs.
    TooManyAces,
    /// The kind is AUDIT or ALARM, which this library does not accept.
    AuditOrAlarm,
    /// The kind is not a kind of the standard.
    AceType,
    /// A flag is not a flag of the standard, or is outside the profile.
    FlagBits,
    /// A right is not a right of the standard, or is outside the profile.
    MaskBits,
    /// With this mask the list would have more than 65,536 mask bits, over all its ACEs.
    TooHeavy,
    /// The who has no byte, or more than 1,024.
    WhoLength,
    /// The who is not UTF-8.
    WhoUtf8,
    /// The who has a byte below 0x20, or 0x7f.
    WhoControl,
    /// The who ends in `@` and is none of `OWNER@`, `GROUP@` and `EVERYONE@`.
    SpecialWho,
    /// A byte of the padding after the who is not zero.
    Padding,
    /// There is a byte after the list, where none may be.
    TrailingBytes,
    /// The source failed. The offset is that of the field that was being read.
    Read,
    /// Memory ran out for the list. The offset has no meaning.
    Memory,
}

/// Writes the name of the reason, such as `Truncated`.
impl fmt::Display for Reason {
    fn fmt<W: fmt::Write>(&self, f: &mut fmt::Formatter<W>) -> fmt::Result {
        write!(f, "{self:?}")
    }
}

/// The first field that is refused, with the place of its first byte.
#[derive(Clone, Copy, Debug, PartialEq, Eq, Error)]
#[error("{reason} at byte {offset}")]
pub struct Fault {
    /// The place of the field's first byte. The list's first byte is at 0.
    pub offset: u64,
    /// What is wrong with the field.
    pub reason: Reason,
}

impl Fault {
    /// Makes the fault of a list as a whole: its place is the first byte of the list.
    pub(crate) fn at_front(reason: Reason) -> Fault
        ensures { result ≡ record { offset = 0; reason = reason } }
    {
        Fault { offset: 0, reason }
    }
}

impl From<AllocError> for Fault {
    ghost use Rattle.acl_nfs4.specs.Stream.{no_memory};

    ghost from_gives = { λ _ fault. fault ≡ no_memory };

    fn from(_: AllocError) -> Fault {
        Fault::at_front(Reason::Memory)
    }
}
