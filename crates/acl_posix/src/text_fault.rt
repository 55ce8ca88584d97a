//! Why a text spells no file.
ghost use Rattle.std.specs.Prelude.{◌≡◌};
ghost use Rattle.acl_posix.specs.TextFault.{acl_fault, part_name};

use crate::fault::AclFault;
use crate::tag::Tag;
use std::fmt;
use thiserror::Error;

/// A part of a text: the entries of the access ACL, or those of the default ACL.
#[derive(Clone, Copy, Debug, PartialEq, Eq)]
pub enum Part {
    /// The entries of the access ACL, which decides who may do what.
    Access,
    /// The entries of the default ACL, which new files in a directory get.
    Default,
}

impl Part {
    /// Returns `access` or `default`, as messages name the part. It takes constant time.
    pub fn name(&self) -> &'static str
        ensures { result.now ≡ part_name self.now }
    {
        match self {
            Part::Access => "access",
            Part::Default => "default",
        }
    }
}

/// Why the entries of a part are not a valid ACL (acl(5), "VALID ACLs"). Places count the entries of the part from 0.
#[derive(Clone, Copy, Debug, PartialEq, Eq, Error)]
#[error("{}", AclFault::from(*self))]
pub enum Cause {
    /// The entry at this place has the tag of an earlier entry.
    Multi(usize),
    /// The user or group entry at this place has the tag and the id of an earlier entry.
    Duplicate(usize),
    /// An entry with this tag is required, and is absent.
    Miss(Tag),
}

impl From<Cause> for AclFault {
    ghost from_gives = { λ cause fault. fault ≡ acl_fault cause };

    fn from(cause: Cause) -> AclFault {
        match cause {
            Cause::Multi(place) => AclFault::Multi(place),
            Cause::Duplicate(place) => AclFault::Duplicate(place),
            Cause::Miss(tag) => AclFault::Miss(tag),
        }
    }
}

/// Why a text is refused. Lines and columns count from 1, and columns count bytes.
#[derive(Clone, Copy, Debug, PartialEq, Eq, Error)]
pub enum TextFault {
    /// The entry here does not have three fields.
    Fields { line: usize, column: usize },
    /// The field here is not a tag.
    Tag { line: usize, column: usize },
    /// The entry here is a mask or other entry, and has a qualifier.
    Qualifier { line: usize, column: usize },
    /// The digits here are above 4294967294.
    Id { line: usize, column: usize },
    /// The name here is not in the table.
    UnknownName { line: usize, column: usize },
    /// The field here has a byte that is not r, w, x or -, or a letter twice.
    Permission { line: usize, column: usize },
    /// There are only blanks here, in place of an entry.
    EmptyEntry { line: usize, column: usize },
    /// The entries of a part are not a valid ACL.
    Invalid(Part, Cause),
    /// Memory ran out.
    Memory,
}

impl TextFault {
    // Returns the name of the fault, with which its message begins unless memory ran out.
    fn name(&self) -> &'static str {
        match self {
            Self::Fields { .. } => "Fields",
            Self::Tag { .. } => "Tag",
            Self::Qualifier { .. } => "Qualifier",
            Self::Id { .. } => "Id",
            Self::UnknownName { .. } => "UnknownName",
            Self::Permission { .. } => "Permission",
            Self::EmptyEntry { .. } => "EmptyEntry",
            Self::Invalid(_, _) => "Invalid",
            Self::Memory => "Memory",
        }
    }
}

/// Writes the name of the fault with its line and its column, or with the part and the cause, or that memory ran out.
impl fmt::Display for TextFault {
    fn fmt<W: fmt::Write>(&self, f: &mut fmt::Formatter<W>) -> fmt::Result {
        match *self {
            Self::Fields { line, column }
            | Self::Tag { line, column }
            | Self::Qualifier { line, column }
            | Self::Id { line, column }
            | Self::UnknownName { line, column }
            | Self::Permission { line, column }
            | Self::EmptyEntry { line, column } => {
                write!(f, "{} at line {line} column {column}", self.name())
            }
            Self::Invalid(part, cause) => write!(f, "{} {}: {cause}", self.name(), part.name()),
            Self::Memory => write!(f, "out of memory"),
        }
    }
}
