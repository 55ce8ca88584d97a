//! ACEs of any type, and which of them are left out.
ghost use Rattle.std.specs.Prelude.{[], ◌∷◌, ◌≡◌, ◌+◌, ◌++◌, ◌<◌, ◌≤◌, IfOk, None, OnOk, count_ones, false, length};
ghost use Rattle.std.specs.List.{cons_option};
ghost use Rattle.acl_perm.specs.Profile.{full};
ghost use Rattle.acl_nfs4.specs.AccessPart.{IsAnyWho, kept_ace, kind_of_type};
ghost use Rattle.acl_nfs4.specs.Limits.{most_aces, most_weight};
ghost use Rattle.acl_nfs4.specs.Spelling.{IsAccepted, weight};
ghost use Rattle.acl_nfs4.specs.Who.{is_no_who_len, is_unknown_special};
ghost use Rattle.acl_nfs4.specs.internal.Reading.{Gives};
ghost use Rattle.acl_forms.specs.Part.{kept_unless, noted_if, reason_of};
ghost use Rattle.acl_forms.specs.PartWords.{unless_unknown, who_by_name};
ghost use Rattle.acl_forms.specs.internal.AnyAces.{HasAnyName, any_ace_of, any_name};

use crate::acl41_ids::{IdWho, name_of};
use crate::fault::ReadReason;
use crate::part::left_out::{LeftOut, LeftOutReason};
use acl_nfs4::internal::{any_who_of, is_unknown_special};
use acl_nfs4::{AceRef, Acl, Flags, Kind, Mask, Reason};
use itoa::Buffer;
use std::alloc::AllocError;

/// The number of the type DENY (RFC 8881, section 6.2.1.1).
pub(crate) const DENY: u32 = 1;

#[derive(Clone, Copy)]
pub(crate) struct AnyAceRef<'a> {
    pub type_number: u32,
    pub flags: Flags,
    pub mask: Mask,
    pub who: AnyWho<'a>,
}

/// Whom an ACE names.
#[derive(Clone, Copy)]
pub(crate) enum AnyWho<'a> {
    /// A name, which may be a special identifier that nobody knows.
    Name(&'a [u8]),
    /// A special identifier, or an id.
    Known(IdWho),
    /// The number of a special identifier that nobody knows.
    Special(u32),
}

impl<'a> AnyAceRef<'a> {
    // Returns why the ACE is left out, if it is.
    fn reason(self) -> Option<LeftOutReason>
        requires { HasAnyName self.who }
        ensures { result ≡ reason_of (any_ace_of self.entry) }
    {
        if self.type_number > DENY {
            return Some(LeftOutReason::AuditOrAlarm);
        }
        if self.who.is_unknown() {
            return Some(LeftOutReason::SpecialWho);
        }
        None
    }
}

impl<'a> AnyWho<'a> {
    // Returns whether nobody knows whom the ACE names.
    fn is_unknown(self) -> bool
        requires { HasAnyName self }
        ensures { result ≡ is_unknown_special (any_name self.entry) }
    {
        match self {
            AnyWho::Name(name) => is_unknown_special(name),
            AnyWho::Known(_) => false,
            AnyWho::Special(_) => true,
        }
    }
}

/// Adds an ACE to the list, or to those that are left out.
pub(crate) fn add(
    list: &mut Acl,
    left_out: &mut Vec<LeftOut>,
    item: AnyAceRef<'_>,
    place: usize,
    offset: u64,
) -> Result<(), AllocError>
    requires named { HasAnyName item.who }
    requires accepted { IsAccepted full list.old }
    requires room { length list.old < most_aces }
    requires light { weight list.old + count_ones item.mask.bits ≤ most_weight }
    ensures kept { OnOk result (list.new ≡ list.old
        ++ cons_option
        (kept_unless (reason_of (any_ace_of item.entry)) (any_ace_of item.entry)) []) }
    ensures good { OnOk result (IsAccepted full list.new) }
    ensures left_out { OnOk result (left_out.new.items ≡ left_out.old.items
        ++ noted_if place offset (reason_of (any_ace_of item.entry))) }
{
    if let Some(reason) = item.reason() {
        left_out.push(LeftOut {
            place,
            offset,
            reason,
        })?;
        return Ok(());
    }
    keep(list, item)
}

// Adds an ACE that is kept to a list that can take it.
fn keep(list: &mut Acl, item: AnyAceRef<'_>) -> Result<(), AllocError>
    requires named { HasAnyName item.who }
    requires wanted { reason_of (any_ace_of item) ≡ None }
    requires accepted { IsAccepted full list.old }
    requires room { length list.old < most_aces }
    requires light { weight list.old + count_ones item.mask.bits ≤ most_weight }
    ensures kept { OnOk result (list.new ≡ list.old ++ kept_ace (any_ace_of item.entry) ∷ []) }
    ensures good { OnOk result
        (IsAccepted full (list.old ++ kept_ace (any_ace_of item.entry) ∷ [])) }
{
    let mut digits = Buffer::new();
    let who = bytes_of(item.who, &mut digits);
    list.push_accepted(AceRef {
        kind: kind_of(item.type_number),
        flags: item.flags,
        mask: item.mask,
        who,
    })
}

// Returns the kind of a type, which is that of an ALLOW or a DENY.
fn kind_of(type_number: u32) -> Kind
    ensures { result ≡ kind_of_type type_number }
{
    if type_number == 0 {
        Kind::Allow
    } else {
        Kind::Deny
    }
}

// Returns the bytes of a name that somebody knows. The digits of an id are written into the buffer.
fn bytes_of<'a>(who: AnyWho<'a>, digits: &'a mut Buffer) -> &'a [u8]
    requires named { HasAnyName who }
    requires known { is_unknown_special (any_name who) ≡ false }
    ensures { result.now ≡ any_name who.entry }
{
    match who {
        AnyWho::Name(name) => name,
        AnyWho::Known(whom) => name_of(whom, digits),
        AnyWho::Special(_) => &[],
    }
}

// ---- the name of an ACE

/// Returns the who of an ACE of this type, or why it is refused.
pub(crate) fn who_of(type_number: u32, name: &[u8]) -> Result<AnyWho<'_>, ReadReason>
    requires { is_no_who_len (length name.now) ≡ false }
    ensures exact { Gives any_name result (who_by_name type_number name.now) }
    ensures named { IfOk result HasAnyName }
{
    match any_who_of(name) {
        Ok(who) => unless_unknown(type_number, who),
        Err(reason) => Err(ReadReason::List(reason)),
    }
}

// Returns the who of an ACE of this type, unless nobody knows whom a DENY names.
fn unless_unknown(type_number: u32, name: &[u8]) -> Result<AnyWho<'_>, ReadReason>
    requires some { is_no_who_len (length name.now) ≡ false }
    requires any { IsAnyWho name.now }
    ensures exact { Gives any_name result (unless_unknown type_number name.now) }
    ensures named { IfOk result HasAnyName }
{
    if type_number == DENY && is_unknown_special(name) {
        return Err(ReadReason::List(Reason::SpecialWho));
    }
    Ok(AnyWho::Name(name))
}
