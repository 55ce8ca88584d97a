//! An ACE that borrows its who, whom it names, and whether it takes part.
ghost use Rattle.std.specs.Prelude.{◌≡◌, not};
ghost use Rattle.acl_perm.specs.Bits.{has_bit, inherit_only};
ghost use Rattle.acl_perm.specs.Principal.{principal};

use crate::who::{EVERYONE_NAME, GROUP_NAME, OWNER_NAME, is_unknown_special};
use acl_perm::{Flags, Key, Kind, Mask, Principal};

/// An ACE that borrows its who (RFC 8881, section 6.2.1).
#[derive(Clone, Copy, Debug, PartialEq, Eq, Hash)]
pub struct AceRef<'a> {
    /// Whether the ACE allows or denies.
    pub kind: Kind,
    /// How the ACE is inherited, and whether its who is a group.
    pub flags: Flags,
    /// The rights that it allows or denies.
    pub mask: Mask,
    /// Whom the ACE names, as `principal` reads it.
    pub who: &'a [u8],
}

impl<'a> AceRef<'a> {
    ghost use Rattle.acl_nfs4.specs.Ace.{ace};
    ghost use Rattle.acl_nfs4.specs.Who.{is_unknown_special, principal_of};

    /// Returns whom the ACE names: `OWNER@`, `GROUP@` and `EVERYONE@` whether or not IDENTIFIER_GROUP is set; for any
    /// other who a group if the flag is set, and a user if it is not (RFC 8881, section 6.2.1.5).
    #[inline(always)]
    pub fn principal(&self) -> Principal<'a>
        ensures { principal result ≡ principal_of (ace self.now) }
    {
        if self.who == OWNER_NAME.as_bytes() {
            Principal::Owner
        } else if self.who == GROUP_NAME.as_bytes() {
            Principal::Group
        } else if self.who == EVERYONE_NAME.as_bytes() {
            Principal::Everyone
        } else if self.flags.is_group() {
            Principal::GroupNamed(self.who)
        } else {
            Principal::User(self.who)
        }
    }

    /// Returns whom the ACE names, and its kind.
    pub fn key(&self) -> Key<'a>
        ensures principal { principal result.principal ≡ principal_of (ace self.now) }
        ensures kind { result.kind ≡ self.now.kind }
    {
        Key {
            principal: self.principal(),
            kind: self.kind,
        }
    }

    /// Returns whether the who is an unknown special identifier: it ends in `@` and is none of `OWNER@`, `GROUP@` and
    /// `EVERYONE@` (RFC 8881, section 6.2.1.5, has others, such as `INTERACTIVE@`). Only `AccessPart` keeps such ACEs.
    pub fn is_unknown(&self) -> bool
        ensures { result ≡ is_unknown_special self.now.who.now }
    {
        !self.who.is_empty() && is_unknown_special(self.who)
    }

    /// Returns whether the ACE takes part in what its list grants, that is, whether it is not for new objects alone
    /// (RFC 8881, section 6.2.1.4.1, INHERIT_ONLY).
    pub fn takes_part(&self) -> bool
        ensures { result ≡ not (has_bit self.now.flags.bits inherit_only) }
    {
        !self.flags.is_inherit_only()
    }
}
