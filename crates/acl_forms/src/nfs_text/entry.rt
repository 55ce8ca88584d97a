//! The ACE that an entry spells, or what is wrong with it.
ghost use Rattle.std.specs.Prelude.{◌≡◌, ◌<◌, ◌≤◌, IfOk, option_map};
ghost use Rattle.acl_perm.specs.Lines.{span_of, ColumnsFit};
ghost use Rattle.acl_nfs4.specs.Limits.{most_aces, most_weight};
ghost use Rattle.acl_nfs4.specs.internal.Reading.{Gives};
ghost use Rattle.acl_forms.specs.Letters.{nfs_flag_letters, nfs_right_letters, no_letter, set_of_letters};
ghost use Rattle.acl_forms.specs.NfsText.{nfs_ace, nfs_entry, nfs_fields_read, nfs_kind, nfs_type, tag_special, unless_special, who_by_fields, who_by_tag, who_of_fields};
ghost use Rattle.acl_forms.specs.PartTexts.{nfs_any_ace, nfs_any_entry};
ghost use Rattle.acl_forms.specs.internal.TextReading.{AddsOne};
ghost use Rattle.acl_forms.specs.ToolsText.{taken};
ghost use Rattle.acl_forms.specs.internal.AnyAces.{IsWithinLimits, any_ace_of, any_entry};
ghost use Rattle.acl_forms.specs.internal.NfsReading.{entry_ace, entry_name, entry_viewed, TailFits};
ghost use Rattle.acl_forms.specs.declared.fault.ReadReason.TheVariants as reasons;
ghost use Rattle.acl_forms.specs.declared.object.ObjectKind.TheVariants.{Directory};

use crate::fault::{ReadFault, ReadReason};
use crate::letters::{NFS_FLAG_LETTERS, NFS_RIGHT_LETTERS, read_letters};
use crate::nfs_text::fields::{EntryParts, fields_of, is_word};
use crate::nfs_text::id::{id_alone, is_odd_number, is_other_number};
use crate::object::ObjectKind;
use crate::part::any_ace::AnyAceRef;
use crate::part::any_entry::{AnyEntry, judged};
use crate::tools::entry::{kind_of, refused_at};
use crate::who_field::WhoField;
use acl_nfs4::internal::is_special_who;
use acl_nfs4::{AceRef, Acl, Flags, Kind, MOST_ACES, Mask, Reason};
use acl_perm::internal::{Piece, is_all_blank};
use acl_posix::Id;
use itoa::Buffer;

/// The who of an entry: the bytes of a name, or an id.
#[derive(Clone, Copy)]
pub(crate) enum EntryWho<'a> {
    Named(&'a [u8]),
    Numbered(Id),
}

#[derive(Clone, Copy)]
struct EntryAce<'a> {
    kind: Kind,
    flags: Flags,
    mask: Mask,
    who: EntryWho<'a>,
}

/// Adds the ACE that an entry spells.
pub(crate) fn add_nfs_entry(
    acl: &mut Acl,
    entry: Piece<'_>,
    source: WhoField,
) -> Result<(), ReadFault>
    requires { ColumnsFit entry }
    ensures { AddsOne (nfs_entry source acl.old (span_of entry.entry)) acl.old
        (λ all. acl.new ≡ all) result }
{
    let fields = fields_read(entry, acl.len())?;
    let item = ace_of(fields, source)?;
    push_at(acl, item, fields.tail.rights.column, fields.who.column)
}

/// Returns the ACE of any type that an entry spells, after this many ACEs of this weight.
#[tactic(auto, unfolding(crate::specs::PartTexts::nfs_any_entry))]
pub(crate) fn any_nfs_ace(
    entry: Piece<'_>,
    source: WhoField,
    count: usize,
    weight: u32,
) -> Result<AnyAceRef<'_>, ReadFault>
    requires fits { ColumnsFit entry }
    requires weight { weight ≤ most_weight }
    ensures exact { Gives any_ace_of result
        (nfs_any_entry source count weight (span_of entry.entry)) }
    ensures within { IfOk result (IsWithinLimits count weight) }
{
    let fields = fields_read(entry, count)?;
    let item = any_ace_of(fields, source)?;
    judged(item, weight, fields.tail.rights.column, fields.who.column)
}

// Returns the fields of an entry, if it is not blank and a list of this many ACEs can take one more.
#[inline(always)]
fn fields_read(entry: Piece<'_>, count: usize) -> Result<EntryParts<'_>, ReadFault>
    requires { ColumnsFit entry }
    ensures exact { Gives entry_viewed result (nfs_fields_read count (span_of entry.entry)) }
    ensures fits { IfOk result (λ fields. TailFits fields.tail) }
    ensures room { IfOk result (λ _. count < most_aces) }
{
    if is_all_blank(entry.bytes) {
        return Err(ReadFault::new(entry.column, ReadReason::EmptyEntry));
    }
    if count >= MOST_ACES as usize {
        return Err(ReadFault::new(entry.column, ReadReason::List(Reason::TooManyAces)));
    }
    fields_of(entry)
}

// Adds an ACE whose mask and who are at these places.
fn push_at(acl: &mut Acl, item: EntryAce<'_>, mask: usize, who: usize) -> Result<(), ReadFault>
    ensures { AddsOne (taken acl.old (entry_ace item.entry) mask who) acl.old
        (λ all. acl.new ≡ all) result }
{
    let mut digits = Buffer::new();
    let name = name_of(item.who, &mut digits);
    let pushed = acl.push(AceRef {
        kind: item.kind,
        flags: item.flags,
        mask: item.mask,
        who: name,
    });
    match pushed {
        Ok(()) => Ok(()),
        Err(fault) => Err(refused_at(mask, who, fault)),
    }
}

// Returns the bytes of a who. The digits of an id are written into the buffer.
fn name_of<'a>(who: EntryWho<'a>, digits: &'a mut Buffer) -> &'a [u8]
    ensures { result.now ≡ entry_name who.entry }
{
    match who {
        EntryWho::Named(name) => name,
        EntryWho::Numbered(id) => digits.format(id.value()).as_bytes(),
    }
}

// Returns the ACE of the fields of an entry, which the list may still refuse.
#[tactic(auto, unfolding(crate::specs::NfsText::nfs_ace))]
fn ace_of(fields: EntryParts<'_>, source: WhoField) -> Result<EntryAce<'_>, ReadFault>
    requires { TailFits fields.tail }
    ensures { Gives entry_ace result (nfs_ace source (entry_viewed fields.entry)) }
{
    let mask = mask_at(fields.tail.rights)?;
    let flags = flags_at(fields.tail.flags)?;
    let kind = kind_at(fields.tail.kind)?;
    let who = who_at(fields, source)?;
    Ok(EntryAce {
        kind,
        flags: fields.tag.with_flags(flags),
        mask,
        who,
    })
}

// Returns the ACE of any type of the fields of an entry, whose who is not judged yet.
#[tactic(auto, unfolding(crate::specs::PartTexts::nfs_any_ace))]
fn any_ace_of(fields: EntryParts<'_>, source: WhoField) -> Result<AnyEntry<'_>, ReadFault>
    requires { TailFits fields.tail }
    ensures { Gives any_entry result (nfs_any_ace source (entry_viewed fields.entry)) }
{
    let mask = mask_at(fields.tail.rights)?;
    let flags = flags_at(fields.tail.flags)?;
    let type_number = type_at(fields.tail.kind)?;
    let who = who_at(fields, source)?;
    Ok(AnyEntry {
        type_number,
        flags: fields.tag.with_flags(flags),
        mask,
        who,
    })
}

#[inline(always)]
fn mask_at(field: Piece<'_>) -> Result<Mask, ReadFault>
    requires { ColumnsFit field }
    ensures { Gives (λ mask. mask.bits) result (set_of_letters (nfs_right_letters no_letter)
        Directory reasons.Mask field.entry.column field.entry.bytes.now) }
{
    // The letters mean the same on files.
    let bits = read_letters(
        &NFS_RIGHT_LETTERS,
        ObjectKind::Directory,
        ReadReason::Mask,
        field,
    )?;
    Ok(Mask { bits })
}

#[inline(always)]
fn flags_at(field: Piece<'_>) -> Result<Flags, ReadFault>
    requires { ColumnsFit field }
    ensures { Gives (λ flags. flags.bits) result (set_of_letters (nfs_flag_letters no_letter)
        Directory reasons.Flag field.entry.column field.entry.bytes.now) }
{
    let bits = read_letters(
        &NFS_FLAG_LETTERS,
        ObjectKind::Directory,
        ReadReason::Flag,
        field,
    )?;
    Ok(Flags { bits: bits as u8 })
}

fn kind_at(field: Piece<'_>) -> Result<Kind, ReadFault>
    ensures { result ≡ nfs_kind (span_of field.entry) }
{
    kind_of(type_at(field)?, field.column)
}

// Returns the number of the type for which a field stands.
#[inline(always)]
fn type_at(field: Piece<'_>) -> Result<u32, ReadFault>
    ensures { result ≡ nfs_type (span_of field.entry) }
{
    if is_word(field.bytes, b"allow") {
        Ok(0)
    } else if is_word(field.bytes, b"deny") {
        Ok(1)
    } else if is_word(field.bytes, b"audit") {
        Ok(2)
    } else if is_word(field.bytes, b"alarm") {
        Ok(3)
    } else {
        Err(ReadFault::new(field.column, ReadReason::List(Reason::AceType)))
    }
}

#[inline(always)]
fn who_at(fields: EntryParts<'_>, source: WhoField) -> Result<EntryWho<'_>, ReadFault>
    ensures { Gives entry_name result
        (who_by_tag source (entry_viewed fields.entry) (tag_special fields.entry.tag)) }
{
    match fields.tag.special() {
        Some(name) => Ok(EntryWho::Named(name)),
        None => account_at(fields.who, fields.tail.id, source),
    }
}

// Returns the user or the group of a name and the field of an id.
fn account_at<'a>(
    name: Piece<'a>,
    field: Option<Piece<'a>>,
    source: WhoField,
) -> Result<EntryWho<'a>, ReadFault>
    ensures { Gives entry_name result
        (who_of_fields source (span_of name.entry) (option_map span_of field.entry)) }
{
    if is_odd_number(name.bytes) {
        return Err(ReadFault::new(name.column, ReadReason::Id));
    }
    account_by(name, field, source)
}

// Returns the user or the group of a name that readers read alike, and of the field of an id.
fn account_by<'a>(
    name: Piece<'a>,
    field: Option<Piece<'a>>,
    source: WhoField,
) -> Result<EntryWho<'a>, ReadFault>
    ensures { Gives entry_name result
        (who_by_fields source (span_of name.entry) (option_map span_of field.entry)) }
{
    let Some(field) = field else {
        return named_at(name);
    };
    let Some(id) = id_alone(field.bytes) else {
        return Err(ReadFault::new(field.column, ReadReason::Id));
    };
    if is_other_number(name.bytes, id) {
        return Err(ReadFault::new(field.column, ReadReason::IdDiffers));
    }
    match source {
        WhoField::Name => named_at(name),
        WhoField::Id => Ok(EntryWho::Numbered(id)),
    }
}

// Returns the name of a user or a group, which is no special identifier.
fn named_at(name: Piece<'_>) -> Result<EntryWho<'_>, ReadFault>
    ensures { Gives entry_name result (unless_special (span_of name.entry)) }
{
    if is_special_who(name.bytes) {
        return Err(ReadFault::new(name.column, ReadReason::List(Reason::SpecialWho)));
    }
    Ok(EntryWho::Named(name.bytes))
}
