//! The flags of an NFSv4 ACE.
ghost use Rattle.std.specs.Prelude.{◌≡◌, IfSome, IsSome, IsTrue, ◌↔◌, ◌==◌, bit_and, bit_or};
ghost use Rattle.std.specs.Int.{bit_not, w8};
ghost use Rattle.acl_perm.specs.Bits.{IsDifference, IsFlags, IsIntersection, IsSubset, IsUnion, all_flags, has_bit, identifier_group, inherit_only};

use std::ops::{BitAnd, BitOr, Not, Sub};

/// A set of the eight flags of an NFSv4 ACE, one bit each (RFC 8881, section 6.2.1.4).
#[derive(Clone, Copy, Debug, PartialEq, Eq, PartialOrd, Ord, Hash)]
pub struct Flags {
    pub bits: u8,
}

impl Flags {
    /// The eight flags together.
    pub const ALL: Flags = Flags { bits: 0xff };

    /// No flag.
    pub const NONE: Flags = Flags { bits: 0 };

    /// New files in the directory get the ACE.
    pub const FILE_INHERIT: Flags = Flags { bits: 0x01 };

    /// New directories in the directory get the ACE.
    pub const DIRECTORY_INHERIT: Flags = Flags { bits: 0x02 };

    /// A new directory does not pass the ACE on.
    pub const NO_PROPAGATE_INHERIT: Flags = Flags { bits: 0x04 };

    /// The ACE takes no part on the object that carries it.
    pub const INHERIT_ONLY: Flags = Flags { bits: 0x08 };

    /// An audit or an alarm for accesses that succeed.
    pub const SUCCESSFUL_ACCESS: Flags = Flags { bits: 0x10 };

    /// An audit or an alarm for accesses that fail.
    pub const FAILED_ACCESS: Flags = Flags { bits: 0x20 };

    /// The who names a group.
    pub const IDENTIFIER_GROUP: Flags = Flags { bits: 0x40 };

    /// The ACE was inherited.
    pub const INHERITED: Flags = Flags { bits: 0x80 };

    /// Returns the set of this number, or `None` if the number has a bit outside `0xff`.
    pub fn new(bits: u32) -> Option<Flags>
        ensures within { IsSome result ↔ IsFlags bits }
        ensures value { IfSome result (λ flags. flags.bits ≡ bits) }
    {
        if bits < 256 {
            Some(Flags { bits: bits as u8 })
        } else {
            None
        }
    }

    /// Returns the flags as the number that an ACE has in XDR.
    pub fn bits(self) -> u8
        ensures { result ≡ self.bits }
    {
        self.bits
    }

    /// Returns whether the ACE takes no part on the object that carries it.
    #[tactic(auto, using(crate::proofs::Sets::flag_tests))]
    pub fn is_inherit_only(self) -> bool
        ensures { result ≡ has_bit self.bits inherit_only }
    {
        (self.bits & Flags::INHERIT_ONLY.bits) != 0
    }

    /// Returns whether the who names a group.
    #[tactic(auto, using(crate::proofs::Sets::flag_tests))]
    pub fn is_group(self) -> bool
        ensures { result ≡ has_bit self.bits identifier_group }
    {
        (self.bits & Flags::IDENTIFIER_GROUP.bits) != 0
    }

    /// Returns what either set has.
    #[tactic(auto, using(crate::proofs::Sets::sets))]
    pub fn union(self, other: Flags) -> Flags
        ensures meaning { IsUnion self.bits other.bits result.bits }
        ensures value { result.bits ≡ bit_or self.bits other.bits }
    {
        Flags {
            bits: self.bits | other.bits,
        }
    }

    /// Returns what both sets have.
    #[tactic(auto, using(crate::proofs::Sets::sets))]
    pub fn intersection(self, other: Flags) -> Flags
        ensures meaning { IsIntersection self.bits other.bits result.bits }
        ensures value { result.bits ≡ bit_and self.bits other.bits }
    {
        Flags {
            bits: self.bits & other.bits,
        }
    }

    /// Returns what this set has and the other does not.
    #[tactic(auto, using(crate::proofs::Sets::sets))]
    pub fn difference(self, other: Flags) -> Flags
        ensures meaning { IsDifference self.bits other.bits result.bits }
        ensures value { result.bits ≡ bit_and self.bits (bit_not w8 other.bits) }
    {
        Flags {
            bits: self.bits & !other.bits,
        }
    }

    /// Returns whether all of the other set is in this one. The empty set is in each set.
    #[tactic(auto, using(crate::proofs::Sets::sets))]
    pub fn contains(self, other: Flags) -> bool
        ensures meaning { IsTrue result ↔ IsSubset other.bits self.bits }
        ensures value { result ≡ (bit_and self.bits other.bits == other.bits) }
    {
        (self.bits & other.bits) == other.bits
    }
}

impl BitOr for Flags {
    type Output = Flags;

    ghost bitor_gives = { λ m n set. IsUnion m.bits n.bits set.bits };

    fn bitor(self, other: Flags) -> Flags
        ensures meaning { IsUnion self.bits other.bits result.bits }
        ensures value { result.bits ≡ bit_or self.bits other.bits }
    {
        self.union(other)
    }
}

impl BitAnd for Flags {
    type Output = Flags;

    ghost bitand_gives = { λ m n set. IsIntersection m.bits n.bits set.bits };

    fn bitand(self, other: Flags) -> Flags
        ensures meaning { IsIntersection self.bits other.bits result.bits }
        ensures value { result.bits ≡ bit_and self.bits other.bits }
    {
        self.intersection(other)
    }
}

impl Sub for Flags {
    type Output = Flags;

    ghost sub_gives = { λ m n set. IsDifference m.bits n.bits set.bits };

    fn sub(self, other: Flags) -> Flags
        ensures meaning { IsDifference self.bits other.bits result.bits }
        ensures value { result.bits ≡ bit_and self.bits (bit_not w8 other.bits) }
    {
        self.difference(other)
    }
}

/// Returns all that the set does not have.
impl Not for Flags {
    type Output = Flags;

    ghost not_gives = { λ m set. IsDifference all_flags m.bits set.bits };

    fn not(self) -> Flags
        ensures meaning { IsDifference all_flags self.bits result.bits }
        ensures value { result.bits ≡ bit_and all_flags (bit_not w8 self.bits) }
    {
        Flags::ALL.difference(self)
    }
}
