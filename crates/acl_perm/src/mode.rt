//! The nine file mode bits.
ghost use Rattle.std.specs.Prelude.{◌≡◌, ◌≤◌, Some, IfSome, IsSome, IsTrue, ◌↔◌, ◌==◌, bit_and, bit_or};
ghost use Rattle.std.specs.Int.{bit_not, w16};
ghost use Rattle.acl_perm.specs.Bits.{IsDifference, IsIntersection, IsSubset, IsUnion, all_mode_bits};
ghost use Rattle.acl_perm.specs.Shown.{mode_text};
ghost use Rattle.acl_perm.specs.Mode.{group_part, mode_of_parts, others_part, owner_part};

use crate::perm::Perm;
use std::fmt;
use std::ops::{BitAnd, BitOr, Not, Sub};

/// The nine file mode bits: those of the owner, of the group and of others, each with read 4, write 2 and execute 1
/// (POSIX.1e draft 17, section 23.1.3).
#[derive(Clone, Copy, Debug, PartialEq, Eq, PartialOrd, Ord, Hash)]
pub struct Mode {
    pub bits: u16,
    ghost within: { bits ≤ all_mode_bits },
}

impl Mode {
    /// No bit.
    pub const NONE: Mode = Mode { bits: 0 };

    /// The nine bits together.
    pub const ALL: Mode = Mode { bits: 0o777 };

    /// Returns the set of this number, or `None` if the number is above `0o777`.
    pub fn new(bits: u16) -> Option<Mode>
        ensures within { IsSome result ↔ (bits ≤ all_mode_bits) }
        ensures value { IfSome result (λ mode. mode.bits ≡ bits) }
    {
        if bits <= Mode::ALL.bits {
            Some(Mode { bits })
        } else {
            None
        }
    }

    /// Returns the mode as a number, from 0 to `0o777`.
    pub fn bits(self) -> u16
        ensures value { result ≡ self.bits }
        ensures within { result ≤ all_mode_bits }
    {
        self.bits
    }

    /// Returns the mode whose three octal digits, from the first to the last, are these permissions.
    pub fn from_parts(owner: Perm, group: Perm, others: Perm) -> Mode
        ensures { result.bits ≡ mode_of_parts owner.bits group.bits others.bits }
    {
        Mode {
            bits: 64 * u16::from(owner.bits) + 8 * u16::from(group.bits) + u16::from(others.bits),
        }
    }

    /// Returns the permissions of the owner: the first of three octal digits.
    pub fn owner(self) -> Perm
        ensures { result.bits ≡ owner_part self.bits }
    {
        Perm {
            bits: (self.bits / 64) as u8,
        }
    }

    /// Returns the permissions of the group: the second of three octal digits.
    pub fn group(self) -> Perm
        ensures { result.bits ≡ group_part self.bits }
    {
        Perm {
            bits: (self.bits / 8 % 8) as u8,
        }
    }

    /// Returns the permissions of others: the last of three octal digits.
    pub fn others(self) -> Perm
        ensures { result.bits ≡ others_part self.bits }
    {
        Perm {
            bits: (self.bits % 8) as u8,
        }
    }

    /// Returns what either set has.
    #[tactic(auto, using(crate::proofs::Sets::sets))]
    pub fn union(self, other: Mode) -> Mode
        ensures meaning { IsUnion self.bits other.bits result.bits }
        ensures value { result.bits ≡ bit_or self.bits other.bits }
    {
        Mode {
            bits: self.bits | other.bits,
        }
    }

    /// Returns what both sets have.
    #[tactic(auto, using(crate::proofs::Sets::sets))]
    pub fn intersection(self, other: Mode) -> Mode
        ensures meaning { IsIntersection self.bits other.bits result.bits }
        ensures value { result.bits ≡ bit_and self.bits other.bits }
    {
        Mode {
            bits: self.bits & other.bits,
        }
    }

    /// Returns what this set has and the other does not.
    #[tactic(auto, using(crate::proofs::Sets::sets))]
    pub fn difference(self, other: Mode) -> Mode
        ensures meaning { IsDifference self.bits other.bits result.bits }
        ensures value { result.bits ≡ bit_and self.bits (bit_not w16 other.bits) }
    {
        Mode {
            bits: self.bits & !other.bits,
        }
    }

    /// Returns whether all of the other set is in this one. The empty set is in each set.
    #[tactic(auto, using(crate::proofs::Sets::sets))]
    pub fn contains(self, other: Mode) -> bool
        ensures meaning { IsTrue result ↔ IsSubset other.bits self.bits }
        ensures value { result ≡ (bit_and self.bits other.bits == other.bits) }
    {
        (self.bits & other.bits) == other.bits
    }
}

impl BitOr for Mode {
    type Output = Mode;

    ghost bitor_gives = { λ m n set. IsUnion m.bits n.bits set.bits };

    fn bitor(self, other: Mode) -> Mode
        ensures meaning { IsUnion self.bits other.bits result.bits }
        ensures value { result.bits ≡ bit_or self.bits other.bits }
    {
        self.union(other)
    }
}

impl BitAnd for Mode {
    type Output = Mode;

    ghost bitand_gives = { λ m n set. IsIntersection m.bits n.bits set.bits };

    fn bitand(self, other: Mode) -> Mode
        ensures meaning { IsIntersection self.bits other.bits result.bits }
        ensures value { result.bits ≡ bit_and self.bits other.bits }
    {
        self.intersection(other)
    }
}

impl Sub for Mode {
    type Output = Mode;

    ghost sub_gives = { λ m n set. IsDifference m.bits n.bits set.bits };

    fn sub(self, other: Mode) -> Mode
        ensures meaning { IsDifference self.bits other.bits result.bits }
        ensures value { result.bits ≡ bit_and self.bits (bit_not w16 other.bits) }
    {
        self.difference(other)
    }
}

/// Returns all that the set does not have.
impl Not for Mode {
    type Output = Mode;

    ghost not_gives = { λ m set. IsDifference all_mode_bits m.bits set.bits };

    fn not(self) -> Mode
        ensures meaning { IsDifference all_mode_bits self.bits result.bits }
        ensures value { result.bits ≡ bit_and all_mode_bits (bit_not w16 self.bits) }
    {
        Mode::ALL.difference(self)
    }
}

/// Writes three octal digits: those of the owner, of the group and of others.
impl fmt::Display for Mode {
    ghost output = { λ mode. Some (mode_text mode.bits) };

    fn fmt<W: fmt::Write>(&self, f: &mut fmt::Formatter<W>) -> fmt::Result {
        let owner = self.owner().bits;
        let group = self.group().bits;
        let others = self.others().bits;
        write!(f, "{owner}{group}{others}")
    }
}
