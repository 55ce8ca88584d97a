//! Which rights and flags a list may have.
ghost use Rattle.std.specs.Prelude.{◌≡◌};
ghost use Rattle.acl_perm.specs.Profile.{profile_of};

use crate::flags::Flags;
use crate::mask::Mask;

/// Which rights and which flags the ACEs of a list may have.
#[derive(Clone, Copy, Debug, PartialEq, Eq, PartialOrd, Ord, Hash)]
pub struct Profile {
    pub masks: Mask,
    pub flags: Flags,
}

impl Profile {
    /// All sixteen rights and all eight flags (RFC 8881, sections 6.2.1.3.1 and 6.2.1.4).
    pub const FULL: Profile = Profile {
        masks: Mask::ALL,
        flags: Flags::ALL,
    };

    /// The rights and flags without WRITE_RETENTION, WRITE_RETENTION_HOLD and INHERITED, which some servers do not
    /// know (this library's own choice).
    pub const NARROW: Profile = Profile {
        masks: Mask { bits: 0x001f_01ff },
        flags: Flags { bits: 0x7f },
    };

    /// Returns the profile of the lists whose ACEs have no other rights and no other flags than these.
    pub fn new(masks: Mask, flags: Flags) -> Profile
        ensures { profile_of result ≡ record { masks = masks.bits; flags = flags.bits } }
    {
        Profile { masks, flags }
    }
}
