//! The ACE that an entry of nfs4-acl-tools spells, or what is wrong with it.
ghost use Rattle.std.specs.Prelude.{◌≡◌, ◌<◌, ◌≤◌, IfOk, IfSome, option_map};
ghost use Rattle.acl_perm.specs.Lines.{span_of, ColumnsFit};
ghost use Rattle.acl_nfs4.specs.Ace.{ace};
ghost use Rattle.acl_nfs4.specs.Limits.{most_aces, most_weight};
ghost use Rattle.acl_nfs4.specs.internal.Reading.{Gives};
ghost use Rattle.acl_forms.specs.Letters.{flag_letters, right_letters, set_of_letters};
ghost use Rattle.acl_forms.specs.PartTexts.{tools_any_ace, tools_any_entry};
ghost use Rattle.acl_forms.specs.internal.TextReading.{AddsOne, fields_viewed, AceFieldsFit};
ghost use Rattle.acl_forms.specs.ToolsText.{tools_ace, entry_fields_of, fields_read, kind_at, kind_read, refused_at, tools_entry, type_read, with_group_flag};
ghost use Rattle.acl_forms.specs.internal.AnyAces.{IsWithinLimits, any_ace_of, any_entry};
ghost use Rattle.acl_forms.specs.declared.fault.ReadReason.TheVariants as reasons;

use crate::fault::{ReadFault, ReadReason};
use crate::letters::{FLAG_LETTERS, RIGHT_LETTERS, read_letters};
use crate::nfs_text::entry::EntryWho;
use crate::object::ObjectKind;
use crate::part::any_ace::AnyAceRef;
use crate::part::any_entry::{AnyEntry, judged};
use acl_nfs4::internal::GROUP_NAME;
use acl_nfs4::{AceRef, Acl, Flags, Kind, MOST_ACES, Mask, PushFault, Reason};
use acl_perm::internal::Piece;

#[derive(Clone, Copy)]
pub(crate) struct AceFields<'a> {
    pub kind: Piece<'a>,
    pub flags: Piece<'a>,
    pub who: Piece<'a>,
    pub rights: Piece<'a>,
}

/// Adds the ACE that an entry spells.
pub(crate) fn add_tools_entry(
    acl: &mut Acl,
    entry: Piece<'_>,
    object: ObjectKind,
) -> Result<(), ReadFault>
    requires { ColumnsFit entry }
    ensures { AddsOne (tools_entry object acl.old (span_of entry.entry)) acl.old
        (λ all. acl.new ≡ all) result }
{
    let fields = fields_read(entry, acl.len())?;
    let item = ace_of(fields, object)?;
    match acl.push(item) {
        Ok(()) => Ok(()),
        Err(fault) => Err(refused_at(fields.rights.column, fields.who.column, fault)),
    }
}

/// Returns the ACE of any type that an entry spells, after this many ACEs of this weight.
#[tactic(auto, unfolding(crate::specs::PartTexts::tools_any_entry))]
pub(crate) fn any_tools_ace(
    entry: Piece<'_>,
    object: ObjectKind,
    count: usize,
    weight: u32,
) -> Result<AnyAceRef<'_>, ReadFault>
    requires fits { ColumnsFit entry }
    requires weight { weight ≤ most_weight }
    ensures exact { Gives any_ace_of result
        (tools_any_entry object count weight (span_of entry.entry)) }
    ensures within { IfOk result (IsWithinLimits count weight) }
{
    let fields = fields_read(entry, count)?;
    let item = any_ace_of(fields, object)?;
    judged(item, weight, fields.rights.column, fields.who.column)
}

// Returns the fields of an entry, if a list of this many ACEs can take one more.
#[inline(always)]
fn fields_read(entry: Piece<'_>, count: usize) -> Result<AceFields<'_>, ReadFault>
    requires { ColumnsFit entry }
    ensures exact { Gives fields_viewed result (fields_read count (span_of entry.entry)) }
    ensures fits { IfOk result AceFieldsFit }
    ensures room { IfOk result (λ _. count < most_aces) }
{
    let Some(fields) = fields_of(entry) else {
        return Err(ReadFault::new(entry.column, ReadReason::Fields));
    };
    if count >= MOST_ACES as usize {
        return Err(ReadFault::new(entry.column, ReadReason::List(Reason::TooManyAces)));
    }
    Ok(fields)
}

// Returns the ACE of the fields of an entry, which the list may still refuse.
#[tactic(auto, unfolding(crate::specs::ToolsText::tools_ace))]
fn ace_of(fields: AceFields<'_>, object: ObjectKind) -> Result<AceRef<'_>, ReadFault>
    requires { AceFieldsFit fields }
    ensures { Gives ace result (tools_ace object (fields_viewed fields.entry)) }
{
    let kind = kind_at(fields.kind)?;
    let flags = flags_at(fields.flags, object)?;
    let mask = mask_at(fields.rights, object)?;
    let who = fields.who.bytes;
    Ok(AceRef {
        kind,
        flags: with_group(who, flags),
        mask,
        who,
    })
}

// Returns the ACE of any type of the fields of an entry, whose who is not judged yet.
#[tactic(auto, unfolding(crate::specs::PartTexts::tools_any_ace))]
fn any_ace_of(fields: AceFields<'_>, object: ObjectKind) -> Result<AnyEntry<'_>, ReadFault>
    requires { AceFieldsFit fields }
    ensures { Gives any_entry result (tools_any_ace object (fields_viewed fields.entry)) }
{
    let type_number = type_at(fields.kind)?;
    let flags = flags_at(fields.flags, object)?;
    let mask = mask_at(fields.rights, object)?;
    let who = fields.who.bytes;
    Ok(AnyEntry {
        type_number,
        flags: with_group(who, flags),
        mask,
        who: EntryWho::Named(who),
    })
}

// Returns the fields of an entry, if there are four.
#[inline(always)]
#[tactic(auto, unfolding(crate::specs::ToolsText::entry_fields_of))]
fn fields_of(entry: Piece<'_>) -> Option<AceFields<'_>>
    requires { ColumnsFit entry }
    ensures value { option_map fields_viewed result ≡ entry_fields_of (span_of entry.entry) }
    ensures fits { IfSome result AceFieldsFit }
{
    let (kind, Some(rest)) = entry.cut(b':') else {
        return None;
    };
    let (flags, Some(rest)) = rest.cut(b':') else {
        return None;
    };
    let (who, Some(rest)) = rest.cut(b':') else {
        return None;
    };
    let (rights, after) = rest.cut(b':');
    match after {
        Some(_) => None,
        None => Some(AceFields {
            kind,
            flags,
            who,
            rights,
        }),
    }
}

#[inline(always)]
fn flags_at(field: Piece<'_>, object: ObjectKind) -> Result<Flags, ReadFault>
    requires { ColumnsFit field }
    ensures { Gives (λ flags. flags.bits) result
        (set_of_letters flag_letters object reasons.Flag field.entry.column
        field.entry.bytes.now) }
{
    let bits = read_letters(&FLAG_LETTERS, object, ReadReason::Flag, field)?;
    Ok(Flags { bits: bits as u8 })
}

#[inline(always)]
fn mask_at(field: Piece<'_>, object: ObjectKind) -> Result<Mask, ReadFault>
    requires { ColumnsFit field }
    ensures { Gives (λ mask. mask.bits) result
        (set_of_letters right_letters object reasons.Mask field.entry.column
        field.entry.bytes.now) }
{
    let bits = read_letters(&RIGHT_LETTERS, object, ReadReason::Mask, field)?;
    Ok(Mask { bits })
}

fn kind_at(field: Piece<'_>) -> Result<Kind, ReadFault>
    ensures { result ≡ kind_read (span_of field.entry) }
{
    kind_of(type_at(field)?, field.column)
}

// Returns the number of the type for which a field stands.
#[inline(always)]
fn type_at(field: Piece<'_>) -> Result<u32, ReadFault>
    ensures { result ≡ type_read (span_of field.entry) }
{
    match field.bytes {
        b"A" => Ok(0),
        b"D" => Ok(1),
        b"U" => Ok(2),
        b"L" => Ok(3),
        _ => Err(ReadFault::new(field.column, ReadReason::List(Reason::AceType))),
    }
}

/// Returns the kind of the type at a place, unless the type is AUDIT or ALARM.
#[inline(always)]
pub(crate) fn kind_of(type_number: u32, place: usize) -> Result<Kind, ReadFault>
    ensures { result ≡ kind_at place type_number }
{
    match type_number {
        0 => Ok(Kind::Allow),
        1 => Ok(Kind::Deny),
        _ => Err(ReadFault::new(place, ReadReason::List(Reason::AuditOrAlarm))),
    }
}

pub(crate) fn with_group(who: &[u8], flags: Flags) -> Flags
    ensures { result.bits ≡ with_group_flag who.now flags.bits }
{
    if who == GROUP_NAME.as_bytes() {
        flags.union(Flags::IDENTIFIER_GROUP)
    } else {
        flags
    }
}

/// Returns the fault of an ACE that the list refuses, at the place of its mask or of its who.
pub(crate) fn refused_at(mask: usize, who: usize, fault: PushFault) -> ReadFault
    ensures { result ≡ refused_at mask who fault }
{
    match fault {
        PushFault::TooManyAces => ReadFault::new(who, ReadReason::List(Reason::TooManyAces)),
        PushFault::TooHeavy => ReadFault::new(mask, ReadReason::List(Reason::TooHeavy)),
        PushFault::WhoLength => ReadFault::new(who, ReadReason::List(Reason::WhoLength)),
        PushFault::WhoUtf8 => ReadFault::new(who, ReadReason::List(Reason::WhoUtf8)),
        PushFault::WhoControl => ReadFault::new(who, ReadReason::List(Reason::WhoControl)),
        PushFault::SpecialWho => ReadFault::new(who, ReadReason::List(Reason::SpecialWho)),
        PushFault::Memory => ReadFault::new(0, ReadReason::List(Reason::Memory)),
    }
}
