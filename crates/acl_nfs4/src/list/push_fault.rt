//! Why a list refuses one more ACE.
ghost use Rattle.std.specs.Prelude.{◌≡◌};
ghost use Rattle.acl_nfs4.specs.Push.{who_refusal};

use crate::who::WhoFault;
use std::alloc::AllocError;
use std::fmt;
use thiserror::Error;

/// Why a list does not accept one more ACE, in the order in which this is judged.
#[derive(Clone, Copy, Debug, PartialEq, Eq, Error)]
pub enum PushFault {
    /// The list has 65,536 ACEs.
    TooManyAces,
    /// The list would have more than 65,536 mask bits, over all its ACEs.
    TooHeavy,
    /// The who has no byte, or more than 1,024.
    WhoLength,
    /// The who is not UTF-8.
    WhoUtf8,
    /// The who has a byte below 0x20, or 0x7f.
    WhoControl,
    /// The who ends in `@` and is none of `OWNER@`, `GROUP@` and `EVERYONE@`.
    SpecialWho,
    /// Memory ran out.
    Memory,
}

/// Writes the name of the fault, such as `TooHeavy`, or that memory ran out.
impl fmt::Display for PushFault {
    fn fmt<W: fmt::Write>(&self, f: &mut fmt::Formatter<W>) -> fmt::Result {
        match self {
            PushFault::Memory => write!(f, "out of memory"),
            fault => write!(f, "{fault:?}"),
        }
    }
}

impl From<WhoFault> for PushFault {
    ghost from_gives = { λ who fault. fault ≡ who_refusal who };

    fn from(who: WhoFault) -> PushFault {
        match who {
            WhoFault::Length => PushFault::WhoLength,
            WhoFault::Utf8 => PushFault::WhoUtf8,
            WhoFault::Control => PushFault::WhoControl,
            WhoFault::Special => PushFault::SpecialWho,
        }
    }
}

impl From<AllocError> for PushFault {
    ghost use Rattle.acl_nfs4.specs.declared.list.push_fault.PushFault.TheVariants.{Memory};

    ghost from_gives = { λ _ fault. fault ≡ Memory };

    fn from(_: AllocError) -> PushFault {
        PushFault::Memory
    }
}
