//! Why a text is not a list, by line and column.
ghost use Rattle.std.specs.Prelude.{◌≡◌, Some};
ghost use Rattle.acl_nfs4.specs.AceTextFault.{text_fault_name, text_fault_text};

use std::alloc::AllocError;
use std::fmt;
use thiserror::Error;

/// Why a text is not a list of ACEs. Lines and columns count from 1, and columns count bytes. The column of an empty
/// field is that of the byte after it.
#[derive(Clone, Copy, Debug, PartialEq, Eq, Error)]
pub enum AceTextFault {
    /// The line would be ACE 65,537.
    TooManyAces { line: usize, column: usize },
    /// The line has fewer than three spaces.
    Fields { line: usize, column: usize },
    /// The kind is neither `ALLOW` nor `DENY`.
    AceType { line: usize, column: usize },
    /// The field here names no flags, or a flag outside the profile.
    Flag { line: usize, column: usize },
    /// The field here names no mask, or a right outside the profile.
    Mask { line: usize, column: usize },
    /// With the mask here the weight is above 65,536.
    TooHeavy { line: usize, column: usize },
    /// The who here has no byte, or more than 1,024.
    WhoLength { line: usize, column: usize },
    /// The who here is not UTF-8.
    WhoUtf8 { line: usize, column: usize },
    /// The who here has a byte below 0x20 or 0x7f.
    WhoControl { line: usize, column: usize },
    /// The who here ends in `@` and is none of the three special ones.
    SpecialWho { line: usize, column: usize },
    /// Memory ran out.
    Memory,
}

impl From<AllocError> for AceTextFault {
    ghost use Rattle.acl_nfs4.specs.declared.text.fault.AceTextFault.TheVariants.{Memory};

    ghost from_gives = { λ _ fault. fault ≡ Memory };

    fn from(_: AllocError) -> AceTextFault {
        AceTextFault::Memory
    }
}

impl AceTextFault {
    // Returns the name of the fault, with which its message begins if it has a place.
    fn name(&self) -> &'static str
        ensures { result.now ≡ text_fault_name self.now }
    {
        match self {
            Self::TooManyAces { .. } => "TooManyAces",
            Self::Fields { .. } => "Fields",
            Self::AceType { .. } => "AceType",
            Self::Flag { .. } => "Flag",
            Self::Mask { .. } => "Mask",
            Self::TooHeavy { .. } => "TooHeavy",
            Self::WhoLength { .. } => "WhoLength",
            Self::WhoUtf8 { .. } => "WhoUtf8",
            Self::WhoControl { .. } => "WhoControl",
            Self::SpecialWho { .. } => "SpecialWho",
            Self::Memory => "Memory",
        }
    }
}

/// Writes the name of the fault with its line and its column, or that memory ran out.
impl fmt::Display for AceTextFault {
    ghost output = { λ fault. Some (text_fault_text fault) };

    fn fmt<W: fmt::Write>(&self, f: &mut fmt::Formatter<W>) -> fmt::Result {
        match *self {
            Self::TooManyAces { line, column }
            | Self::Fields { line, column }
            | Self::AceType { line, column }
            | Self::Flag { line, column }
            | Self::Mask { line, column }
            | Self::TooHeavy { line, column }
            | Self::WhoLength { line, column }
            | Self::WhoUtf8 { line, column }
            | Self::WhoControl { line, column }
            | Self::SpecialWho { line, column } => {
                write!(f, "{} at line {line} column {column}", self.name())
            }
            Self::Memory => write!(f, "out of memory"),
        }
    }
}
