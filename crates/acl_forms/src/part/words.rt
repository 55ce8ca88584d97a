//! The part of a list of ACEs of any type that words spell.
ghost use Rattle.std.specs.Prelude.{[], false, ◌≡◌, ◌+◌, ◌<◌, ◌≤◌, IfOk, Ok, count_ones};
ghost use Rattle.acl_nfs4.specs.Fields.{padding_of, who_len_of};
ghost use Rattle.acl_nfs4.specs.Limits.{most_aces, most_weight};
ghost use Rattle.acl_nfs4.specs.PartFault.{type_of};
ghost use Rattle.acl_nfs4.specs.Spelling.{pad_len};
ghost use Rattle.acl_nfs4.specs.Who.{is_no_who_len};
ghost use Rattle.acl_nfs4.specs.internal.Reading.{Gives};
ghost use Rattle.acl_nfs4.specs.internal.Cursor.{place};
ghost use Rattle.acl_forms.specs.PartWords.{who_by_name, who_by_number};
ghost use Rattle.acl_forms.specs.Words.{listed, word_at};
ghost use Rattle.acl_forms.specs.internal.AnyAces.{GivesAnyPart, HasAnyName, IsPartReadAs, ace_by_name, ace_by_number, aces_from, any_ace_of, any_name, bytes_at, reader_of, whole_in};

use crate::acl_flags::AclFlags;
use crate::acl41_ids::{account_of, count, flags, mask, special, special_whom};
use crate::fault::{ReadFault, ReadReason};
use crate::part::ReadablePart;
use crate::part::any_ace::{AnyAceRef, AnyWho, DENY, add, who_of};
use crate::words::{acl_flags, offset_of, placed, placed_listed, start, word};
use acl_nfs4::internal::{Cursor, pad_len, padding_of, type_of, who_len_of};
use acl_nfs4::{Acl, Reason};
use std::alloc::Global;

/// How words spell an ACE.
#[derive(Clone, Copy)]
pub(crate) enum Layout {
    /// The who is a name, as in nfsacl41.
    ByName,
    /// The who is the number of a special identifier or an id, as in nfsacl41i.
    ByNumber,
}

/// Returns the part of what all of the bytes spell, or their first fault.
#[tactic(auto, unfolding(crate::specs::internal::AnyAces::whole_in))]
pub(crate) fn read_words(
    alloc: Global,
    bytes: &[u8],
    layout: Layout,
) -> Result<ReadablePart, ReadFault>
    ensures { IsPartReadAs result (whole_in (reader_of layout) bytes.now) }
{
    let mut cursor = start(bytes);
    let flags = acl_flags(&mut cursor)?;
    let count = count(&mut cursor)?;
    let part = part_of(alloc, &mut cursor, flags, count, layout)?;
    if !cursor.rest.is_empty() {
        return Err(ReadFault {
            offset: offset_of(&cursor),
            reason: ReadReason::List(Reason::TrailingBytes),
        });
    }
    Ok(part)
}

// Reads the part of this many ACEs.
fn part_of(
    alloc: Global,
    cursor: &mut Cursor<'_>,
    flags: AclFlags,
    count: u32,
    layout: Layout,
) -> Result<ReadablePart, ReadFault>
    requires { count ≤ most_aces }
    ensures { GivesAnyPart flags.bits (place cursor.new) result
        (aces_from (reader_of layout) count [] (place cursor.old)) }
{
    let mut list = Acl::new(alloc);
    let mut left_out = Vec::new(alloc);
    let mut weight = 0;
    let mut place = 0;
    while place < count {
        let offset = offset_of(cursor);
        let ace = next_ace(cursor, weight, layout)?;
        add(&mut list, &mut left_out, ace, place as usize, offset)?;
        weight += ace.mask.bits().count_ones();
        place += 1;
    }
    Ok(ReadablePart {
        flags,
        list,
        left_out,
    })
}

fn next_ace<'a>(
    cursor: &mut Cursor<'a>,
    weight: u32,
    layout: Layout,
) -> Result<AnyAceRef<'a>, ReadFault>
    requires { weight ≤ most_weight }
    ensures exact { Gives (λ x. (any_ace_of x, place cursor.new)) result
        (reader_of layout weight (place cursor.old)) }
    ensures light { IfOk result (λ x. weight + count_ones x.mask.bits ≤ most_weight) }
    ensures named { IfOk result (λ x. HasAnyName x.who) }
{
    match layout {
        Layout::ByName => ace_by_name(cursor, weight),
        Layout::ByNumber => ace_by_number(cursor, weight),
    }
}

#[tactic(auto, unfolding(crate::specs::internal::AnyAces::ace_by_name))]
fn ace_by_name<'a>(cursor: &mut Cursor<'a>, weight: u32) -> Result<AnyAceRef<'a>, ReadFault>
    requires { weight ≤ most_weight }
    ensures exact { Gives (λ x. (any_ace_of x, place cursor.new)) result
        (ace_by_name weight (place cursor.old)) }
    ensures light { IfOk result (λ x. weight + count_ones x.mask.bits ≤ most_weight) }
    ensures named { IfOk result (λ x. HasAnyName x.who) }
{
    let type_number = type_number(cursor)?;
    let flags = flags(cursor)?;
    let mask = mask(cursor, weight)?;
    let len = who_len(cursor)?;
    let who = name(cursor, len, type_number)?;
    padding(cursor, len)?;
    Ok(AnyAceRef {
        type_number,
        flags,
        mask,
        who,
    })
}

#[tactic(auto, unfolding(crate::specs::internal::AnyAces::ace_by_number))]
fn ace_by_number<'a>(cursor: &mut Cursor<'a>, weight: u32) -> Result<AnyAceRef<'a>, ReadFault>
    requires { weight ≤ most_weight }
    ensures exact { Gives (λ x. (any_ace_of x, place cursor.new)) result
        (ace_by_number weight (place cursor.old)) }
    ensures light { IfOk result (λ x. weight + count_ones x.mask.bits ≤ most_weight) }
    ensures named { IfOk result (λ x. HasAnyName x.who) }
{
    let type_number = type_number(cursor)?;
    let flags = flags(cursor)?;
    let special = special(cursor)?;
    let mask = mask(cursor, weight)?;
    let who = number(cursor, type_number, special)?;
    Ok(AnyAceRef {
        type_number,
        flags,
        mask,
        who,
    })
}

// ---- the fields of an ACE

fn type_number(cursor: &mut Cursor<'_>) -> Result<u32, ReadFault>
    ensures { Gives (λ x. (x, place cursor.new)) result
        (word_at (λ n. listed (type_of n)) (place cursor.old)) }
{
    let offset = offset_of(cursor);
    placed_listed(offset, type_of(word(cursor)?))
}

fn who_len(cursor: &mut Cursor<'_>) -> Result<usize, ReadFault>
    ensures exact { Gives (λ x. (x, place cursor.new)) result
        (word_at (λ n. listed (who_len_of n)) (place cursor.old)) }
    ensures some { IfOk result (λ x. is_no_who_len x ≡ false) }
{
    let offset = offset_of(cursor);
    placed_listed(offset, who_len_of(word(cursor)?))
}

fn name<'a>(cursor: &mut Cursor<'a>, len: usize, type_number: u32) -> Result<AnyWho<'a>, ReadFault>
    requires { is_no_who_len len ≡ false }
    ensures exact { Gives (λ x. (any_name x, place cursor.new)) result
        (bytes_at len (who_by_name type_number) (place cursor.old)) }
    ensures named { IfOk result HasAnyName }
{
    let offset = offset_of(cursor);
    placed(offset, who_of(type_number, bytes(cursor, len)?))
}

fn padding(cursor: &mut Cursor<'_>, len: usize) -> Result<(), ReadFault>
    ensures { Gives (λ x. (x, place cursor.new)) result
        (bytes_at (pad_len len) (λ b. listed (padding_of b)) (place cursor.old)) }
{
    let offset = offset_of(cursor);
    placed_listed(offset, padding_of(bytes(cursor, pad_len(len))?))
}

// Reads this many bytes, or fails with Truncated at the place where they should begin.
fn bytes<'a>(cursor: &mut Cursor<'a>, len: usize) -> Result<&'a [u8], ReadFault>
    ensures { Gives (λ x. (x.now, place cursor.new)) result
        (bytes_at len (λ b. Ok b) (place cursor.old)) }
{
    if cursor.rest.len() < len {
        return Err(ReadFault {
            offset: offset_of(cursor),
            reason: ReadReason::List(Reason::Truncated),
        });
    }
    let (front, rest) = cursor.rest.split_at(len);
    cursor.rest = rest;
    Ok(front)
}

fn number<'a>(
    cursor: &mut Cursor<'a>,
    type_number: u32,
    special: u32,
) -> Result<AnyWho<'a>, ReadFault>
    ensures exact { Gives (λ x. (any_name x, place cursor.new)) result
        (word_at (who_by_number type_number special) (place cursor.old)) }
    ensures named { IfOk result HasAnyName }
{
    let offset = offset_of(cursor);
    placed(offset, number_of(type_number, special, word(cursor)?))
}

fn number_of<'a>(type_number: u32, special: u32, number: u32) -> Result<AnyWho<'a>, ReadReason>
    ensures exact { Gives any_name result (who_by_number type_number special number) }
    ensures named { IfOk result HasAnyName }
{
    if special != 1 {
        return Ok(AnyWho::Known(account_of(number)?));
    }
    match special_whom(number) {
        Ok(whom) => Ok(AnyWho::Known(whom)),
        Err(reason) if type_number == DENY => Err(reason),
        Err(_) => Ok(AnyWho::Special(number)),
    }
}
