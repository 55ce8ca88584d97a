//! The flags of a whole list.
ghost use Rattle.std.specs.Prelude.{◌≡◌, ◌↔◌, ◌==◌, IfSome, IsSome, IsTrue, bit_and, bit_or};
ghost use Rattle.acl_perm.specs.Bits.{IsSubset, IsUnion};
ghost use Rattle.acl_forms.specs.AclFlags.{IsAclFlags};

// The five flags together.
const ALL: u32 = 0x0003_0007;

/// A set of flags of a whole list, one bit each: the three of RFC 8881, section 6.2.2, and the two that OpenZFS sets
/// beside them in the same word (ACL_IS_TRIVIAL and ACL_IS_DIR). No flag changes what the list grants.
#[derive(Clone, Copy, Debug, PartialEq, Eq)]
pub struct AclFlags {
    pub bits: u32,
    ghost within: { IsAclFlags bits },
}

impl AclFlags {
    /// No flag.
    pub const NONE: AclFlags = AclFlags { bits: 0 };

    /// Changes of a directory's list go on to the objects in it.
    pub const AUTO_INHERIT: AclFlags = AclFlags { bits: 1 };

    /// Changes of the parent's list do not come to this list.
    pub const PROTECTED: AclFlags = AclFlags { bits: 2 };

    /// A program and no person set the list.
    pub const DEFAULTED: AclFlags = AclFlags { bits: 4 };

    /// The list says no more than the mode (OpenZFS).
    pub const IS_TRIVIAL: AclFlags = AclFlags { bits: 0x0001_0000 };

    /// The list is that of a directory (OpenZFS).
    pub const IS_DIR: AclFlags = AclFlags { bits: 0x0002_0000 };

    /// Returns the set of this number, or `None` if the number has a bit outside `0x00030007`. Constant time.
    ///
    /// ```rust
    /// let flags = AclFlags::new(3).ok_or("flags")?;
    /// assert!(rt; flags.contains(AclFlags::PROTECTED));
    /// assert!(rt; !flags.contains(AclFlags::DEFAULTED));
    /// assert!(rt; flags.bits() == 3);
    /// ```
    pub fn new(bits: u32) -> Option<AclFlags>
        ensures within { IsSome result ↔ IsAclFlags bits }
        ensures value { IfSome result (λ flags. flags.bits ≡ bits) }
    {
        if bits & ALL == bits {
            Some(AclFlags { bits })
        } else {
            None
        }
    }

    /// Returns the flags as the number that a value has. Constant time.
    pub fn bits(self) -> u32
        ensures value { result ≡ self.bits }
        ensures within { IsAclFlags result }
    {
        self.bits
    }

    /// Returns whether all flags of the other set are in this one. Constant time.
    #[tactic(auto, using(acl_perm::proofs::Sets::sets))]
    pub fn contains(self, other: AclFlags) -> bool
        ensures meaning { IsTrue result ↔ IsSubset other.bits self.bits }
        ensures value { result ≡ (bit_and self.bits other.bits == other.bits) }
    {
        (self.bits & other.bits) == other.bits
    }
}
