//! Read, write and execute of a POSIX ACL entry.
ghost use Rattle.std.specs.Prelude.{◌≡◌, Some, IfSome, IsSome, IsTrue, ◌↔◌, ◌==◌, bit_and, bit_or};
ghost use Rattle.std.specs.Int.{bit_not, w8};
ghost use Rattle.acl_perm.specs.Shown.{perm_text};
ghost use Rattle.acl_perm.specs.Bits.{IsDifference, IsIntersection, IsPerm, IsSubset, IsUnion, all_permissions};

use std::fmt;
use std::ops::{BitAnd, BitOr, Not, Sub};

/// A set of the permissions of a POSIX ACL entry: read is 4, write is 2, execute is 1 (POSIX.1e draft 17,
/// section 23.1.2).
#[derive(Clone, Copy, Debug, PartialEq, Eq, PartialOrd, Ord, Hash)]
pub struct Perm {
    pub bits: u8,
    ghost within: { IsPerm bits },
}

impl Perm {
    /// No permission.
    pub const NONE: Perm = Perm { bits: 0 };

    /// Read a file, or list a directory.
    pub const READ: Perm = Perm { bits: 4 };

    /// Write a file, or create and remove files in a directory.
    pub const WRITE: Perm = Perm { bits: 2 };

    /// Execute a file, or pass through a directory.
    pub const EXECUTE: Perm = Perm { bits: 1 };

    /// Read, write and execute.
    pub const ALL: Perm = Perm { bits: 7 };

    /// Returns the set of this number, or `None` if the number is above 7.
    pub fn new(bits: u8) -> Option<Perm>
        ensures within { IsSome result ↔ IsPerm bits }
        ensures value { IfSome result (λ perm. perm.bits ≡ bits) }
    {
        if bits < 8 { Some(Perm { bits }) } else { None }
    }

    /// Returns the permissions as a number, from 0 to 7: the sum of read 4, write 2 and execute 1.
    pub fn bits(self) -> u8
        ensures value { result ≡ self.bits }
        ensures within { IsPerm result }
    {
        self.bits
    }

    /// Returns what either set has.
    #[tactic(auto, using(crate::proofs::Sets::sets))]
    pub fn union(self, other: Perm) -> Perm
        ensures meaning { IsUnion self.bits other.bits result.bits }
        ensures value { result.bits ≡ bit_or self.bits other.bits }
    {
        Perm {
            bits: self.bits | other.bits,
        }
    }

    /// Returns what both sets have.
    #[tactic(auto, using(crate::proofs::Sets::sets))]
    pub fn intersection(self, other: Perm) -> Perm
        ensures meaning { IsIntersection self.bits other.bits result.bits }
        ensures value { result.bits ≡ bit_and self.bits other.bits }
    {
        Perm {
            bits: self.bits & other.bits,
        }
    }

    /// Returns what this set has and the other does not.
    #[tactic(auto, using(crate::proofs::Sets::sets))]
    pub fn difference(self, other: Perm) -> Perm
        ensures meaning { IsDifference self.bits other.bits result.bits }
        ensures value { result.bits ≡ bit_and self.bits (bit_not w8 other.bits) }
    {
        Perm {
            bits: self.bits & !other.bits,
        }
    }

    /// Returns whether all of the other set is in this one. The empty set is in each set.
    #[tactic(auto, using(crate::proofs::Sets::sets))]
    pub fn contains(self, other: Perm) -> bool
        ensures meaning { IsTrue result ↔ IsSubset other.bits self.bits }
        ensures value { result ≡ (bit_and self.bits other.bits == other.bits) }
    {
        (self.bits & other.bits) == other.bits
    }
}

impl BitOr for Perm {
    type Output = Perm;

    ghost bitor_gives = { λ m n set. IsUnion m.bits n.bits set.bits };

    fn bitor(self, other: Perm) -> Perm
        ensures meaning { IsUnion self.bits other.bits result.bits }
        ensures value { result.bits ≡ bit_or self.bits other.bits }
    {
        self.union(other)
    }
}

impl BitAnd for Perm {
    type Output = Perm;

    ghost bitand_gives = { λ m n set. IsIntersection m.bits n.bits set.bits };

    fn bitand(self, other: Perm) -> Perm
        ensures meaning { IsIntersection self.bits other.bits result.bits }
        ensures value { result.bits ≡ bit_and self.bits other.bits }
    {
        self.intersection(other)
    }
}

impl Sub for Perm {
    type Output = Perm;

    ghost sub_gives = { λ m n set. IsDifference m.bits n.bits set.bits };

    fn sub(self, other: Perm) -> Perm
        ensures meaning { IsDifference self.bits other.bits result.bits }
        ensures value { result.bits ≡ bit_and self.bits (bit_not w8 other.bits) }
    {
        self.difference(other)
    }
}

/// Returns all that the set does not have.
impl Not for Perm {
    type Output = Perm;

    ghost not_gives = { λ m set. IsDifference all_permissions m.bits set.bits };

    fn not(self) -> Perm
        ensures meaning { IsDifference all_permissions self.bits result.bits }
        ensures value { result.bits ≡ bit_and all_permissions (bit_not w8 self.bits) }
    {
        Perm::ALL.difference(self)
    }
}

/// Writes `r`, `w` and `x`, with `-` in place of each that is absent.
impl fmt::Display for Perm {
    ghost output = { λ perm. Some (perm_text perm.bits) };

    fn fmt<W: fmt::Write>(&self, f: &mut fmt::Formatter<W>) -> fmt::Result {
        let read = if self.bits & 4 == 4 { 'r' } else { '-' };
        let write = if self.bits & 2 == 2 { 'w' } else { '-' };
        let execute = if self.bits & 1 == 1 { 'x' } else { '-' };
        write!(f, "{read}{write}{execute}")
    }
}
