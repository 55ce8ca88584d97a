//! The access rights of an NFSv4 ACE.
ghost use Rattle.std.specs.Prelude.{◌≡◌, IfSome, IsSome, IsTrue, ◌↔◌, ◌==◌, bit_and, bit_or};
ghost use Rattle.std.specs.Int.{bit_not, w32};
ghost use Rattle.acl_perm.specs.Bits.{IsDifference, IsIntersection, IsMask, IsSubset, IsUnion, all_rights, has_bit};

use crate::bit::Bit;
use crate::right::Right;
use std::ops::{BitAnd, BitOr, Not, Sub};

/// A set of the sixteen access rights of an NFSv4 ACE, one bit each (RFC 8881, section 6.2.1.3.1).
#[derive(Clone, Copy, Debug, PartialEq, Eq, PartialOrd, Ord, Hash)]
pub struct Mask {
    pub bits: u32,
    ghost within: { IsMask bits },
}

impl Mask {
    /// The sixteen rights together.
    pub const ALL: Mask = Mask { bits: 0x001f_07ff };

    /// No right.
    pub const NONE: Mask = Mask { bits: 0 };

    /// Read the data of a file.
    pub const READ_DATA: Mask = Mask { bits: 0x1 };

    /// List a directory: the name of `READ_DATA` there.
    pub const LIST_DIRECTORY: Mask = Mask { bits: 0x1 };

    /// Write the data of a file.
    pub const WRITE_DATA: Mask = Mask { bits: 0x2 };

    /// Add a file to a directory: the name of `WRITE_DATA` there.
    pub const ADD_FILE: Mask = Mask { bits: 0x2 };

    /// Write after the end of a file.
    pub const APPEND_DATA: Mask = Mask { bits: 0x4 };

    /// Add a directory to a directory: the name of `APPEND_DATA` there.
    pub const ADD_SUBDIRECTORY: Mask = Mask { bits: 0x4 };

    /// Read the named attributes of a file, or look up their directory.
    pub const READ_NAMED_ATTRS: Mask = Mask { bits: 0x8 };

    /// Write the named attributes of a file, or create their directory.
    pub const WRITE_NAMED_ATTRS: Mask = Mask { bits: 0x10 };

    /// Execute a file, or pass through a directory.
    pub const EXECUTE: Mask = Mask { bits: 0x20 };

    /// Delete a file or a directory within a directory.
    pub const DELETE_CHILD: Mask = Mask { bits: 0x40 };

    /// Read the basic attributes.
    pub const READ_ATTRIBUTES: Mask = Mask { bits: 0x80 };

    /// Change the times of a file or a directory.
    pub const WRITE_ATTRIBUTES: Mask = Mask { bits: 0x100 };

    /// Change how long a file is retained.
    pub const WRITE_RETENTION: Mask = Mask { bits: 0x200 };

    /// Change the administrative hold on a file.
    pub const WRITE_RETENTION_HOLD: Mask = Mask { bits: 0x400 };

    /// Delete the file or the directory.
    pub const DELETE: Mask = Mask { bits: 0x0001_0000 };

    /// Read the ACL of a file or a directory.
    pub const READ_ACL: Mask = Mask { bits: 0x0002_0000 };

    /// Write the ACL, and the mode.
    pub const WRITE_ACL: Mask = Mask { bits: 0x0004_0000 };

    /// Change the owner and the owning group.
    pub const WRITE_OWNER: Mask = Mask { bits: 0x0008_0000 };

    /// Use the object as something to wait on.
    pub const SYNCHRONIZE: Mask = Mask { bits: 0x0010_0000 };

    /// Returns the set of this number, or `None` if the number has a bit outside `0x001f07ff`.
    pub fn new(bits: u32) -> Option<Mask>
        ensures within { IsSome result ↔ IsMask bits }
        ensures value { IfSome result (λ mask. mask.bits ≡ bits) }
    {
        if bits & Mask::ALL.bits == bits {
            Some(Mask { bits })
        } else {
            None
        }
    }

    /// Returns the rights as the number that an ACE has in XDR.
    pub fn bits(self) -> u32
        ensures value { result ≡ self.bits }
        ensures within { IsMask result }
    {
        self.bits
    }

    /// Returns what either set has.
    #[tactic(auto, using(crate::proofs::Sets::sets))]
    pub fn union(self, other: Mask) -> Mask
        ensures meaning { IsUnion self.bits other.bits result.bits }
        ensures value { result.bits ≡ bit_or self.bits other.bits }
    {
        Mask {
            bits: self.bits | other.bits,
        }
    }

    /// Returns what both sets have.
    #[tactic(auto, using(crate::proofs::Sets::sets))]
    pub fn intersection(self, other: Mask) -> Mask
        ensures meaning { IsIntersection self.bits other.bits result.bits }
        ensures value { result.bits ≡ bit_and self.bits other.bits }
    {
        Mask {
            bits: self.bits & other.bits,
        }
    }

    /// Returns what this set has and the other does not.
    #[tactic(auto, using(crate::proofs::Sets::sets))]
    pub fn difference(self, other: Mask) -> Mask
        ensures meaning { IsDifference self.bits other.bits result.bits }
        ensures value { result.bits ≡ bit_and self.bits (bit_not w32 other.bits) }
    {
        Mask {
            bits: self.bits & !other.bits,
        }
    }

    /// Returns whether all of the other set is in this one. The empty set is in each set.
    #[tactic(auto, using(crate::proofs::Sets::sets))]
    pub fn contains(self, other: Mask) -> bool
        ensures meaning { IsTrue result ↔ IsSubset other.bits self.bits }
        ensures value { result ≡ (bit_and self.bits other.bits == other.bits) }
    {
        (self.bits & other.bits) == other.bits
    }

    /// Returns whether this one right is in the set. `contains` is for sets.
    pub fn has(self, right: Right) -> bool
        ensures { result ≡ has_bit self.bits right.bit }
    {
        Bit::from(right).is_in(self)
    }
}

impl BitOr for Mask {
    type Output = Mask;

    ghost bitor_gives = { λ m n set. IsUnion m.bits n.bits set.bits };

    fn bitor(self, other: Mask) -> Mask
        ensures meaning { IsUnion self.bits other.bits result.bits }
        ensures value { result.bits ≡ bit_or self.bits other.bits }
    {
        self.union(other)
    }
}

impl BitAnd for Mask {
    type Output = Mask;

    ghost bitand_gives = { λ m n set. IsIntersection m.bits n.bits set.bits };

    fn bitand(self, other: Mask) -> Mask
        ensures meaning { IsIntersection self.bits other.bits result.bits }
        ensures value { result.bits ≡ bit_and self.bits other.bits }
    {
        self.intersection(other)
    }
}

impl Sub for Mask {
    type Output = Mask;

    ghost sub_gives = { λ m n set. IsDifference m.bits n.bits set.bits };

    fn sub(self, other: Mask) -> Mask
        ensures meaning { IsDifference self.bits other.bits result.bits }
        ensures value { result.bits ≡ bit_and self.bits (bit_not w32 other.bits) }
    {
        self.difference(other)
    }
}

/// Returns all that the set does not have.
impl Not for Mask {
    type Output = Mask;

    ghost not_gives = { λ m set. IsDifference all_rights m.bits set.bits };

    fn not(self) -> Mask
        ensures meaning { IsDifference all_rights self.bits result.bits }
        ensures value { result.bits ≡ bit_and all_rights (bit_not w32 self.bits) }
    {
        Mask::ALL.difference(self)
    }
}
