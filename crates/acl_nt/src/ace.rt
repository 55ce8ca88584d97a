//! The ACEs of a descriptor.
ghost use Rattle.std.specs.Prelude.{◌≡◌};
ghost use Rattle.acl_nt.specs.Descriptor.{nt_ace};
ghost use Rattle.acl_nt.specs.NtCheck.{is_for_object, is_owner_ace, owner_rights, same_sid};
ghost use Rattle.acl_nt.specs.Sid.{sid as sid_of};

use crate::sid::Sid;
use acl_perm::Kind;

/// An ACE that allows or denies (MS-DTYP, sections 2.4.4.2 and 2.4.4.4).
#[derive(Debug, PartialEq, Eq, Drop)]
pub struct NtAce {
    /// Whether the ACE allows or denies.
    pub kind: Kind,
    /// How the ACE is inherited: OI 1, CI 2, NP 4, IO 8, INHERITED 0x10, SA 0x40, FA 0x80.
    pub flags: u8,
    /// The rights that it allows or denies.
    pub mask: u32,
    /// Whom the ACE names.
    pub sid: Sid,
}

/// An ACE of another type than ALLOW and DENY, or an ACE of a SACL.
#[derive(Clone, Copy, Debug, PartialEq, Eq)]
pub struct OtherAce {
    /// The place of its first byte in the value.
    pub offset: u64,
    /// The number of its type (MS-DTYP, section 2.4.4.1).
    pub type_number: u8,
}

// The flag INHERIT_ONLY_ACE.
const INHERIT_ONLY: u8 = 8;

pub(crate) fn is_owner_ace(ace: &NtAce) -> bool
    ensures { result ≡ is_owner_ace (nt_ace ace.now) }
{
    is_for_object(ace) && is_owner_rights(&ace.sid)
}

pub(crate) fn is_for_object(ace: &NtAce) -> bool
    ensures { result ≡ is_for_object (nt_ace ace.now) }
{
    ace.flags & INHERIT_ONLY == 0
}

pub(crate) fn is_owner_rights(sid: &Sid) -> bool
    ensures { result ≡ same_sid owner_rights (sid_of sid.now) }
{
    sid.authority == 3 && sid.words.as_slice() == [4].as_slice()
}
