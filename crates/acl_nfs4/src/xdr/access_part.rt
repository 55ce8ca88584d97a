//! The part of a list that access reads: AUDIT and ALARM ACEs are left out, and a special identifier may be unknown.
ghost use Rattle.std.specs.Prelude.{[], false, ◌≡◌, ◌+◌, ◌<◌, ◌≤◌, ◌⊎◌, IfErr, IfOk, List, OnOk, All, count_ones, length, map};
ghost use Rattle.acl_perm.specs.Profile.{full, profile_of};
ghost use Rattle.acl_nfs4.specs.Ace.{ace};
ghost use Rattle.acl_nfs4.specs.AccessPart.{AnyAce, AnyXdr, IsAnyWho, IsPartOf, access_part, flags_kept, kept_ace};
ghost use Rattle.acl_nfs4.specs.Fields.{count_of};
ghost use Rattle.acl_nfs4.specs.Limits.{most_aces, most_weight};
ghost use Rattle.acl_nfs4.specs.PartFault.{FaultsOrMemory, IsFaultOfPart, IsPartOrMemory, any_who_of, type_of};
ghost use Rattle.acl_nfs4.specs.Spelling.{weight as part_weight};
ghost use Rattle.acl_nfs4.specs.Stream.{no_memory};
ghost use Rattle.acl_nfs4.specs.Who.{is_no_who_len};
ghost use Rattle.acl_nfs4.specs.declared.xdr.fault.Fault.{Fault};
ghost use Rattle.acl_nfs4.specs.internal.Cursor.{place};
ghost use Rattle.acl_nfs4.specs.internal.PartReading.{GivesPart, PartReadAs, any_ace, any_ace_at, part_from, part_in, with_ace};
ghost use Rattle.acl_nfs4.specs.internal.Reading.{Gives, field, word_field};

use crate::ace::AceRef;
use crate::who::{is_unknown_special, judge_any_text};
use crate::xdr::cursor::Cursor;
use crate::xdr::fault::{Fault, Reason};
use crate::xdr::judges::{self, who_reason};
use crate::xdr::reading::{bytes, offset_of, padding, placed, word};
use acl_perm::{Flags, Kind, Mask, Profile};
use std::alloc::{AllocError, Global};
use std::marker::Model;

/// The part of a list that access reads. AUDIT and ALARM ACEs grant and deny nothing, so they are left out and counted.
/// The other ACEs are kept in order. They may name special identifiers that nobody knows, such as `INTERACTIVE@`; these
/// ACEs have IDENTIFIER_GROUP set, because such a name means a set of requesters, as the name of a group does.
#[derive(Debug, Drop)]
pub struct AccessPart<'a> {
    pub(crate) aces: Vec<AceRef<'a>>,
    left_out: u32,
}

impl<'a> Model for AccessPart<'a> {
    ghost use Rattle.std.specs.Prelude.{◌≤◌, ◌+◌, length, map};
    ghost use Rattle.acl_nfs4.specs.Ace.{ace};
    ghost use Rattle.acl_nfs4.specs.AccessPart.{Part};
    ghost use Rattle.acl_nfs4.specs.internal.PartReading.{CanBePart};

    ghost Value = { Part };

    ghost view = { λ s. record { kept = map ace s.aces.items; left_out = s.left_out } };

    ghost invariant = { λ s. CanBePart s.aces.items };
}

impl<'a> AccessPart<'a> {
    /// Returns what access reads of the list that all of the bytes spell: its ALLOW and DENY ACEs, in order, and the
    /// number of AUDIT and ALARM ACEs. The names are slices of the input. Fails as `AclView::parse_whole` does, with
    /// the same reasons and places, except that it accepts AUDIT and ALARM ACEs and all special identifiers; and with
    /// Memory if memory runs out. The limits of a list count all ACEs.
    ///
    /// ```rust
    /// let bytes = b"\0\0\0\x02\0\0\0\x02\0\0\0\x10\0\0\0\x01\0\0\0\x03bob\0\0\0\0\0\0\0\0\0\0\0\0\x01\0\0\0\x04NOW@";
    /// let part = AccessPart::parse_whole(alloc, bytes)?;
    /// assert!(rt; part.left_out() == 1);
    /// for ace in part.aces() {
    ///     assert!(rt; ace.is_unknown());
    /// }
    /// ```
    pub fn parse_whole(alloc: Global, bytes: &'a [u8]) -> Result<AccessPart<'a>, Fault>
        ensures found { IfOk result (IsPartOf full bytes.now) }
        // If the bytes spell a list of any ACEs, its part is returned.
        ensures only { (list : List AnyAce) → AnyXdr full list bytes.now
            → IsPartOrMemory result (access_part list) }
        ensures fault { IfErr result (λ f. (f ≡ no_memory) ⊎ IsFaultOfPart full bytes.now f) }
        // Bytes with a fault are refused with that fault.
        ensures refused { (f : Fault) → IsFaultOfPart full bytes.now f → FaultsOrMemory result f }
    {
        AccessPart::parse_whole_with(alloc, bytes, Profile::FULL)
    }

    /// Returns what access reads of the list that all of the bytes spell, as `parse_whole` does, if the profile has the
    /// flags and masks of all ACEs, also of those that are left out.
    pub fn parse_whole_with(
        alloc: Global,
        bytes: &'a [u8],
        profile: Profile,
    ) -> Result<AccessPart<'a>, Fault>
        ensures found { IfOk result (IsPartOf (profile_of profile) bytes.now) }
        ensures only { (list : List AnyAce) → AnyXdr (profile_of profile) list bytes.now
            → IsPartOrMemory result (access_part list) }
        ensures fault { IfErr result (λ f. (f ≡ no_memory)
            ⊎ IsFaultOfPart (profile_of profile) bytes.now f) }
        ensures refused { (f : Fault) → IsFaultOfPart (profile_of profile) bytes.now f
            → FaultsOrMemory result f }
    {
        whole_part(alloc, bytes, profile)
    }

    /// Returns the ACEs that are kept, in order. No who is empty.
    pub fn aces(&self) -> &[AceRef<'a>]
        ensures same { map ace result.now ≡ self.now.kept }
        ensures named { All (λ a. 1 ≤ length a.who.now) result.now }
    {
        &self.aces
    }

    /// Returns how many AUDIT and ALARM ACEs are left out.
    pub fn left_out(&self) -> usize
        ensures { result ≡ self.now.left_out }
    {
        self.left_out as usize
    }

    // Adds one more ACE of the list, or counts it.
    fn add(&mut self, item: AccessAce<'a>) -> Result<(), AllocError>
        requires few { length self.old.kept + self.old.left_out < most_aces }
        requires light { part_weight self.old.kept + count_ones item.mask.bits ≤ most_weight }
        requires named { IsAnyWho item.who.now }
        ensures { OnOk result (self.new ≡ with_ace self.old (any_ace item.entry)) }
    {
        if item.type_number > 1 {
            self.left_out += 1;
            return Ok(());
        }
        self.aces.push(kept(item))?;
        Ok(())
    }
}

#[derive(Clone, Copy)]
struct AccessAce<'a> {
    type_number: u32,
    flags: Flags,
    mask: Mask,
    who: &'a [u8],
}

// Returns the ACE that is kept of an ALLOW or a DENY.
fn kept(item: AccessAce<'_>) -> AceRef<'_>
    requires { IsAnyWho item.who.now }
    ensures { ace result ≡ kept_ace (any_ace item.entry) }
{
    AceRef {
        kind: if item.type_number == 0 {
            Kind::Allow
        } else {
            Kind::Deny
        },
        flags: flags_kept(item.flags, item.who),
        mask: item.mask,
        who: item.who,
    }
}

// Returns the flags with IDENTIFIER_GROUP, if the who is an unknown special identifier.
pub(crate) fn flags_kept(flags: Flags, who: &[u8]) -> Flags
    requires { 1 ≤ length who.now }
    ensures { result.bits ≡ flags_kept flags.bits who.now }
{
    if is_unknown_special(who) {
        flags.union(Flags::IDENTIFIER_GROUP)
    } else {
        flags
    }
}

// Returns the part of the list that all of the bytes spell.
#[tactic(auto, unfolding(crate::specs::internal::PartReading::part_in))]
fn whole_part(alloc: Global, bytes: &[u8], profile: Profile) -> Result<AccessPart<'_>, Fault>
    ensures { PartReadAs result (part_in (profile_of profile) bytes.now) }
{
    let mut cursor = Cursor {
        len: bytes.len(),
        rest: bytes,
    };
    let count = count(&mut cursor)?;
    let part = part_of(alloc, &mut cursor, count, profile)?;
    if !cursor.rest.is_empty() {
        return Err(Fault {
            offset: offset_of(&cursor),
            reason: Reason::TrailingBytes,
        });
    }
    Ok(part)
}

// Reads the part of this many ACEs.
fn part_of<'a>(
    alloc: Global,
    cursor: &mut Cursor<'a>,
    count: u32,
    profile: Profile,
) -> Result<AccessPart<'a>, Fault>
    requires { count ≤ most_aces }
    ensures { GivesPart (place cursor.new) result (part_from (profile_of profile) count 0
        (record { kept = []; left_out = 0 }) (place cursor.old)) }
{
    let mut part = AccessPart {
        aces: Vec::new(alloc),
        left_out: 0,
    };
    let mut weight = 0;
    let mut left = count;
    while left > 0 {
        let ace = any_ace(cursor, weight, profile)?;
        part.add(ace)?;
        weight += ace.mask.bits().count_ones();
        left -= 1;
    }
    Ok(part)
}

// Reads the number of ACEs.
fn count(cursor: &mut Cursor<'_>) -> Result<u32, Fault>
    ensures exact { Gives (λ x. (x, place cursor.new)) result
        (word_field count_of (place cursor.old)) }
    ensures small { IfOk result (λ x. x ≤ most_aces) }
{
    let (offset, number) = word(cursor)?;
    placed(offset, judges::count_of(number))
}

// Reads the next ACE, of any type.
#[tactic(auto, unfolding(crate::specs::internal::PartReading::any_ace_at))]
fn any_ace<'a>(
    cursor: &mut Cursor<'a>,
    weight: u32,
    profile: Profile,
) -> Result<AccessAce<'a>, Fault>
    requires { weight ≤ most_weight }
    ensures exact { Gives (λ x. (any_ace x, place cursor.new)) result
        (any_ace_at (profile_of profile) weight (place cursor.old)) }
    ensures light { IfOk result (λ x. weight + count_ones x.mask.bits ≤ most_weight) }
    ensures named { IfOk result (λ x. IsAnyWho x.who.now) }
{
    let (offset, number) = word(cursor)?;
    let type_number = placed(offset, type_of(number))?;
    let (offset, number) = word(cursor)?;
    let flags = placed(offset, judges::flags_of(number, profile))?;
    let (offset, number) = word(cursor)?;
    let mask = placed(offset, judges::mask_of(number, weight, profile))?;
    let (offset, number) = word(cursor)?;
    let len = placed(offset, judges::who_len_of(number))?;
    let who = any_who(cursor, len)?;
    padding(cursor, len)?;
    Ok(AccessAce {
        type_number,
        flags,
        mask,
        who,
    })
}

/// Returns the number as the number of a type, or refuses it.
pub fn type_of(number: u32) -> Result<u32, Reason>
    ensures { Gives (λ x. x) result (type_of number) }
{
    if number < 4 {
        Ok(number)
    } else {
        Err(Reason::AceType)
    }
}

// Reads the who, which may be any special identifier.
fn any_who<'a>(cursor: &mut Cursor<'a>, len: usize) -> Result<&'a [u8], Fault>
    requires { is_no_who_len len ≡ false }
    ensures exact { Gives (λ x. (x.now, place cursor.new)) result
        (field len any_who_of (place cursor.old)) }
    ensures named { IfOk result (λ x. IsAnyWho x.now) }
{
    let offset = offset_of(cursor);
    placed(offset, any_who_of(bytes(cursor, len)?))
}

/// Returns the who, which may be any special identifier, or why it is refused.
pub fn any_who_of(bytes: &[u8]) -> Result<&[u8], Reason>
    ensures { Gives (λ x. x.now) result (any_who_of bytes.now) }
{
    match judge_any_text(bytes) {
        Ok(()) => Ok(bytes),
        Err(fault) => Err(who_reason(fault)),
    }
}
