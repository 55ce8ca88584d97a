//! The two kinds of an NFSv4 ACE.
ghost use Rattle.std.specs.Prelude.{◌≡◌, ◌≤◌, Some, length};
ghost use Rattle.acl_perm.specs.Kind.{is_allow, kind_number, other_kind};
ghost use Rattle.acl_perm.specs.Names.{kind_name};
ghost use Rattle.acl_perm.specs.internal.NameTable.{longest_kind_name};

use std::fmt;

/// Whether an NFSv4 ACE denies or allows (RFC 8881, section 6.2.1.1).
#[derive(Clone, Copy, Debug, PartialEq, Eq, PartialOrd, Ord, Hash)]
pub enum Kind {
    /// The ACE denies its rights to the principal that it names.
    Deny,
    /// The ACE allows its rights to the principal that it names.
    Allow,
}

impl Kind {
    /// Returns ALLOW for DENY, and DENY for ALLOW.
    pub fn other(self) -> Kind
        ensures { result ≡ other_kind self }
    {
        match self {
            Kind::Deny => Kind::Allow,
            Kind::Allow => Kind::Deny,
        }
    }

    /// Returns `true` for ALLOW, and `false` for DENY.
    pub fn is_allow(self) -> bool
        ensures { result ≡ is_allow self }
    {
        match self {
            Kind::Deny => false,
            Kind::Allow => true,
        }
    }

    /// Returns the number of the kind in XDR (RFC 8881, section 6.2.1.1): 0 for ALLOW, and 1 for DENY.
    #[inline(always)]
    pub fn number(self) -> u32
        ensures { result ≡ kind_number self }
    {
        match self {
            Kind::Allow => 0,
            Kind::Deny => 1,
        }
    }
}

/// Writes `ALLOW` or `DENY`.
impl fmt::Display for Kind {
    ghost output = { λ kind. Some (kind_name kind) };

    fn fmt<W: fmt::Write>(&self, f: &mut fmt::Formatter<W>) -> fmt::Result {
        f.write_str(kind_name(*self))
    }
}

/// Returns the name of a kind in texts: `ALLOW` or `DENY`.
#[inline(always)]
pub fn kind_name(kind: Kind) -> &'static str
    ensures name { result.now ≡ kind_name kind }
    ensures short { length result.now ≤ longest_kind_name }
{
    match kind {
        Kind::Deny => "DENY",
        Kind::Allow => "ALLOW",
    }
}
