//! Lists whose users and groups are ids, as Samba keeps them.
ghost use Rattle.std.specs.Prelude.{[], ◌∷◌, ◌++◌, ◌≡◌, ◌+◌, ◌<◌, ◌≤◌, ◌⊎◌, ℕ, IfErr, IfOk, List, OnOk, count_ones, length};
ghost use Rattle.acl_perm.specs.Profile.{full};
ghost use Rattle.acl_nfs4.specs.Ace.{Ace};
ghost use Rattle.acl_nfs4.specs.Fields.{count_of, flags_of, kind_of, mask_of};
ghost use Rattle.acl_nfs4.specs.Limits.{most_aces, most_weight};
ghost use Rattle.acl_nfs4.specs.Spelling.{IsAccepted, weight};
ghost use Rattle.acl_nfs4.specs.internal.Reading.{Gives};
ghost use Rattle.acl_nfs4.specs.internal.Cursor.{place};
ghost use Rattle.acl_forms.specs.Acl41Ids.{IsAcl41Ids, IsAcl41IdsFault, id_who, id_who_of, special_of, special_who};
ghost use Rattle.acl_forms.specs.ReadFaults.{no_memory_left};
ghost use Rattle.acl_forms.specs.Words.{IfForm, ReadsForm, RefusesForm, listed, word_at};
ghost use Rattle.acl_forms.specs.declared.fault.ReadFault.{ReadFault};
ghost use Rattle.acl_forms.specs.internal.IdAces.{ReadAs, ace_by_id, acl41_ids_in, flags_and_list, id_ace_at, id_aces_from, whom_name};

use crate::acl_flags::AclFlags;
use crate::fault::{ReadFault, ReadReason};
use crate::words::{acl_flags, offset_of, placed, placed_listed, start, word};
use acl_nfs4::internal::{
    Cursor, EVERYONE_NAME, GROUP_NAME, OWNER_NAME, count_of, flags_of, kind_of, mask_of,
};
use acl_nfs4::{AceRef, Acl, Flags, Kind, Mask, Profile, Reason};
use acl_posix::Id;
use itoa::Buffer;
use std::alloc::{AllocError, Global};

/// An ACE whose who is a special identifier or an id.
#[derive(Clone, Copy)]
pub(crate) struct IdAce {
    pub kind: Kind,
    pub flags: Flags,
    pub mask: Mask,
    pub whom: IdWho,
}

/// A special identifier, or the id of a user or a group.
#[derive(Clone, Copy)]
pub(crate) enum IdWho {
    Owner,
    Group,
    Everyone,
    Account(Id),
}

/// Returns the flags and the list that all of the bytes spell: nfsacl41i, the value of Samba's attribute
/// `security.nfs4acl_xdr`. An id is read as its decimal digits; `AclView::renamed` exchanges them for names. Fails with
/// the fault of the first word that is refused, at its first byte: AclFlagBits, IflagBits, Id for 4294967295,
/// SpecialWho for a special identifier other than `OWNER@`, `GROUP@` and `EVERYONE@`, and otherwise as
/// `AclView::parse_whole` does; and with Memory if memory runs out. Time linear in the bytes, and one growing list.
///
/// ```rust
/// let bytes = b"\0\0\0\0\0\0\0\x01\0\0\0\0\0\0\0\0\0\0\0\0\0\0\0\x01\0\0\x03\xe9";
/// let (_, list) = read_acl41_ids(alloc, bytes)?;
/// for ace in list.aces() {
///     assert!(rt; ace.principal() == Principal::User(b"1001"));
/// }
/// ```
pub fn read_acl41_ids(alloc: Global, bytes: &[u8]) -> Result<(AclFlags, Acl), ReadFault>
    ensures found { IfForm result (λ flags list. IsAcl41Ids flags list bytes.now) }
    // If the bytes spell flags and a list, these are returned.
    ensures only { (flags : ℕ) (list : List Ace) → IsAcl41Ids flags list bytes.now
        → ReadsForm result flags list }
    ensures fault { IfErr result (λ fault. (fault ≡ no_memory_left)
        ⊎ IsAcl41IdsFault bytes.now fault) }
    // Bytes with a fault are refused with that fault.
    ensures refused { (wrong : ReadFault) → IsAcl41IdsFault bytes.now wrong
        → RefusesForm result wrong }
{
    read_whole(alloc, bytes)
}

// Returns what the bytes spell, or their first fault.
#[tactic(auto, unfolding(crate::specs::internal::IdAces::acl41_ids_in))]
fn read_whole(alloc: Global, bytes: &[u8]) -> Result<(AclFlags, Acl), ReadFault>
    ensures { ReadAs flags_and_list result (acl41_ids_in bytes.now) }
{
    let mut cursor = start(bytes);
    let flags = acl_flags(&mut cursor)?;
    let count = count(&mut cursor)?;
    let list = list_of(alloc, &mut cursor, count)?;
    if !cursor.rest.is_empty() {
        return Err(ReadFault {
            offset: offset_of(&cursor),
            reason: ReadReason::List(Reason::TrailingBytes),
        });
    }
    Ok((flags, list))
}

// Reads the list of this many ACEs.
fn list_of(alloc: Global, cursor: &mut Cursor<'_>, count: u32) -> Result<Acl, ReadFault>
    requires { count ≤ most_aces }
    ensures { ReadAs (λ x. (x, place cursor.new)) result
        (id_aces_from count [] (place cursor.old)) }
{
    let mut list = Acl::new(alloc);
    for _ in 0..count {
        let ace = next_ace(cursor, list.weight())?;
        push(&mut list, ace)?;
    }
    Ok(list)
}

// Adds an ACE to a list that can take it.
fn push(list: &mut Acl, item: IdAce) -> Result<(), AllocError>
    requires accepted { IsAccepted full list.old }
    requires room { length list.old < most_aces }
    requires light { weight list.old + count_ones item.mask.bits ≤ most_weight }
    ensures added { OnOk result (list.new ≡ list.old ++ ace_by_id item ∷ []) }
    ensures good { OnOk result (IsAccepted full (list.old ++ ace_by_id item ∷ [])) }
{
    let mut digits = Buffer::new();
    let IdAce {
        kind,
        flags,
        mask,
        whom,
    } = item;
    let who = name_of(whom, &mut digits);
    list.push_accepted(AceRef {
        kind,
        flags,
        mask,
        who,
    })
}

// Returns the who. The digits of an id are written into the buffer.
pub(crate) fn name_of(whom: IdWho, digits: &mut Buffer) -> &[u8]
    ensures { result.now ≡ whom_name whom }
{
    match whom {
        IdWho::Owner => OWNER_NAME.as_bytes(),
        IdWho::Group => GROUP_NAME.as_bytes(),
        IdWho::Everyone => EVERYONE_NAME.as_bytes(),
        IdWho::Account(id) => digits.format(id.value()).as_bytes(),
    }
}

// ---- the words of an ACE

#[tactic(auto, unfolding(crate::specs::internal::IdAces::id_ace_at))]
fn next_ace(cursor: &mut Cursor<'_>, weight: u32) -> Result<IdAce, ReadFault>
    requires { weight ≤ most_weight }
    ensures exact { Gives (λ x. (ace_by_id x, place cursor.new)) result
        (id_ace_at weight (place cursor.old)) }
    ensures light { IfOk result (λ x. weight + count_ones x.mask.bits ≤ most_weight) }
{
    let kind = kind(cursor)?;
    let flags = flags(cursor)?;
    let special = special(cursor)?;
    let mask = mask(cursor, weight)?;
    let whom = whom_word(cursor, special)?;
    Ok(IdAce {
        kind,
        flags,
        mask,
        whom,
    })
}

// Reads the number of ACEs.
pub(crate) fn count(cursor: &mut Cursor<'_>) -> Result<u32, ReadFault>
    ensures exact { Gives (λ x. (x, place cursor.new)) result
        (word_at (λ n. listed (count_of n)) (place cursor.old)) }
    ensures small { IfOk result (λ x. x ≤ most_aces) }
{
    let offset = offset_of(cursor);
    placed_listed(offset, count_of(word(cursor)?))
}

fn kind(cursor: &mut Cursor<'_>) -> Result<Kind, ReadFault>
    ensures { Gives (λ x. (x, place cursor.new)) result
        (word_at (λ n. listed (kind_of n)) (place cursor.old)) }
{
    let offset = offset_of(cursor);
    placed_listed(offset, kind_of(word(cursor)?))
}

pub(crate) fn flags(cursor: &mut Cursor<'_>) -> Result<Flags, ReadFault>
    ensures { Gives (λ x. (x.bits, place cursor.new)) result
        (word_at (λ n. listed (flags_of full n)) (place cursor.old)) }
{
    let offset = offset_of(cursor);
    placed_listed(offset, flags_of(word(cursor)?, Profile::FULL))
}

pub(crate) fn special(cursor: &mut Cursor<'_>) -> Result<u32, ReadFault>
    ensures { Gives (λ x. (x, place cursor.new)) result
        (word_at special_of (place cursor.old)) }
{
    let offset = offset_of(cursor);
    placed(offset, special_of(word(cursor)?))
}

fn special_of(number: u32) -> Result<u32, ReadReason>
    ensures { Gives (λ x. x) result (special_of number) }
{
    if number > 1 {
        return Err(ReadReason::IflagBits);
    }
    Ok(number)
}

pub(crate) fn mask(cursor: &mut Cursor<'_>, weight: u32) -> Result<Mask, ReadFault>
    requires { weight ≤ most_weight }
    ensures exact { Gives (λ x. (x.bits, place cursor.new)) result
        (word_at (λ n. listed (mask_of full weight n)) (place cursor.old)) }
    ensures light { IfOk result (λ x. weight + count_ones x.bits ≤ most_weight) }
{
    let offset = offset_of(cursor);
    placed_listed(offset, mask_of(word(cursor)?, weight, Profile::FULL))
}

fn whom_word(cursor: &mut Cursor<'_>, special: u32) -> Result<IdWho, ReadFault>
    ensures { Gives (λ x. (whom_name x, place cursor.new)) result
        (word_at (id_who_of special) (place cursor.old)) }
{
    let offset = offset_of(cursor);
    placed(offset, whom_of(special, word(cursor)?))
}

#[tactic(auto, unfolding(crate::specs::Acl41Ids::id_who_of))]
fn whom_of(special: u32, number: u32) -> Result<IdWho, ReadReason>
    ensures { Gives whom_name result (id_who_of special number) }
{
    if special == 1 {
        return special_whom(number);
    }
    account_of(number)
}

pub(crate) fn account_of(number: u32) -> Result<IdWho, ReadReason>
    ensures { Gives whom_name result (id_who number) }
{
    match Id::new(number) {
        Some(id) => Ok(IdWho::Account(id)),
        None => Err(ReadReason::Id),
    }
}

pub(crate) fn special_whom(number: u32) -> Result<IdWho, ReadReason>
    ensures { Gives whom_name result (special_who number) }
{
    match number {
        1 => Ok(IdWho::Owner),
        2 => Ok(IdWho::Group),
        3 => Ok(IdWho::Everyone),
        _ => Err(ReadReason::List(Reason::SpecialWho)),
    }
}
