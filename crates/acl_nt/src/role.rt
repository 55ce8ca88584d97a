//! What the ACEs of an ACL are read for.
ghost use Rattle.std.specs.Prelude.{◌≡◌};
ghost use Rattle.acl_nt.specs.AceAt.{keeps_owner_ace, type_decides, is_left_out, is_plain_type, takes_type};
ghost use Rattle.acl_nt.specs.Descriptor.{nt_ace};

use crate::ace::{NtAce, is_owner_ace};

/// What the ACEs of an ACL are read for.
#[derive(Clone, Copy)]
pub(crate) enum Role {
    /// A DACL of ALLOW and DENY ACEs alone.
    Deciding,
    /// The ALLOW and DENY ACEs of a DACL that may have others.
    DecidingPart,
    /// A SACL.
    Auditing,
}

impl Role {
    pub(crate) fn takes_type(self, number: u8) -> bool
        ensures { result ≡ takes_type self number }
    {
        match self {
            Role::Deciding => is_plain(number),
            Role::DecidingPart => is_plain(number) || is_left_out(number),
            Role::Auditing => true,
        }
    }

    pub(crate) fn decides(self, number: u8) -> bool
        ensures { result ≡ type_decides self number }
    {
        match self {
            Role::Deciding | Role::DecidingPart => is_plain(number),
            Role::Auditing => false,
        }
    }

    pub(crate) fn keeps_owner_ace(self, number: u8, ace: &NtAce) -> bool
        ensures { result ≡ keeps_owner_ace self number (nt_ace ace.now) }
    {
        match self {
            Role::Deciding | Role::Auditing => true,
            Role::DecidingPart => !(is_left_out(number) && is_owner_ace(ace)),
        }
    }
}

fn is_plain(number: u8) -> bool
    ensures { result ≡ is_plain_type number }
{
    number <= 1
}

fn is_left_out(number: u8) -> bool
    ensures { result ≡ is_left_out number }
{
    matches!(number, 2 | 3 | 5 | 7 | 8 | 9 | 11 | 13..=20)
}
