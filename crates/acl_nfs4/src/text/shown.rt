//! ACEs, masks, flags and principals as `Display` shows them: by the names of the text form.
ghost use Rattle.std.specs.Prelude.{◌≡◌, Some};
ghost use Rattle.acl_nfs4.specs.Ace.{ace};
ghost use Rattle.acl_nfs4.specs.AceText.{ace_shown, as_text, principal_shown};
ghost use Rattle.acl_nfs4.specs.BitNames.{set_text};
ghost use Rattle.acl_nfs4.specs.FlagNames.{flag_names};
ghost use Rattle.acl_nfs4.specs.Rights.{rights};
ghost use Rattle.acl_perm.specs.Principal.{principal};

use crate::ace::AceRef;
use crate::names::flag_names::FLAGS;
use crate::text::writer::{Line, add_set};
use crate::who::{EVERYONE_NAME, GROUP_NAME, OWNER_NAME};
use acl_perm::internal::RIGHTS;
use acl_perm::{Flags, Mask, Principal};
use std::fmt;

/// Shows flags by their names in the text form, in ascending order of their bits with `|` between them, and no flag as
/// `-`.
#[derive(Clone, Copy, Debug, PartialEq, Eq, Hash)]
pub struct FlagNames {
    /// The flags that are shown.
    pub flags: Flags,
}

impl fmt::Display for FlagNames {
    ghost output = { λ shown. Some (set_text flag_names shown.flags.bits) };

    #[tactic(auto, using(crate::proofs::names::Shown::flags_shown))]
    fn fmt<W: fmt::Write>(&self, f: &mut fmt::Formatter<W>) -> fmt::Result {
        let mut line = Line::new();
        add_set(&mut line, &FLAGS, self.flags.bits() as u32);
        f.write_str(as_text(&line))
    }
}

/// Shows a mask by the names of its rights, in ascending order of their bits with `|` between them, and no right as
/// `-`.
#[derive(Clone, Copy, Debug, PartialEq, Eq, Hash)]
pub struct RightNames {
    /// The mask that is shown.
    pub mask: Mask,
}

impl fmt::Display for RightNames {
    ghost output = { λ shown. Some (set_text rights shown.mask.bits) };

    fn fmt<W: fmt::Write>(&self, f: &mut fmt::Formatter<W>) -> fmt::Result {
        f.write_str(as_text(&rights_text(self.mask)))
    }
}

/// Returns the names of the rights of a mask, as `RightNames` shows them. It takes no memory.
pub fn rights_text(mask: Mask) -> Line
    ensures { result.items ≡ set_text rights mask.bits }
{
    let mut line = Line::new();
    add_set(&mut line, &RIGHTS, mask.bits());
    line
}

/// Shows a principal by the who that names it: `OWNER@`, `GROUP@`, `EVERYONE@`, or the name of the user or of the
/// group, which are shown alike. A name that is not UTF-8, which no list has, is shown as U+FFFD.
#[derive(Clone, Copy, Debug)]
pub struct PrincipalName<'a> {
    /// The principal that is shown.
    pub principal: Principal<'a>,
}

impl<'a> fmt::Display for PrincipalName<'a> {
    ghost output = { λ shown. Some (principal_shown (principal shown.principal)) };

    fn fmt<W: fmt::Write>(&self, f: &mut fmt::Formatter<W>) -> fmt::Result {
        match self.principal {
            Principal::Owner => f.write_str(OWNER_NAME),
            Principal::Group => f.write_str(GROUP_NAME),
            Principal::Everyone => f.write_str(EVERYONE_NAME),
            Principal::User(name) | Principal::GroupNamed(name) => f.write_str(as_text(name)),
        }
    }
}

/// Writes the line of the ACE in the text form, without a line feed. A who that is not UTF-8, which no list has, is
/// shown as U+FFFD.
impl<'a> fmt::Display for AceRef<'a> {
    ghost output = { λ a. Some (ace_shown (ace a)) };

    fn fmt<W: fmt::Write>(&self, f: &mut fmt::Formatter<W>) -> fmt::Result {
        let kind = self.kind;
        let flags = FlagNames { flags: self.flags };
        let mask = RightNames { mask: self.mask };
        let who = as_text(self.who);
        write!(f, "{kind} {flags} {mask} {who}")
    }
}

// Returns bytes as text, if they are UTF-8.
#[tactic(auto, using(crate::proofs::plain_ascii::PlainText::text_tests))]
fn as_text(bytes: &[u8]) -> &str
    ensures { result.now ≡ as_text bytes.now }
{
    match str::from_utf8(bytes) {
        Ok(text) => text,
        Err(_) => "\u{FFFD}",
    }
}
