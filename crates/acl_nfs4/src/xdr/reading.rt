//! Reads the fields of a list in memory, one after the other, and reports the offset of a field that is refused.
ghost use Rattle.std.specs.Prelude.{◌≡◌, ◌+◌, ◌≤◌, Ok, IfOk, IfSome, count_ones};
ghost use Rattle.acl_perm.specs.Profile.{profile_of};
ghost use Rattle.acl_nfs4.specs.Fields.{padding_of};
ghost use Rattle.acl_nfs4.specs.Limits.{most_weight};
ghost use Rattle.acl_nfs4.specs.internal.Reading.{Gives, Placed, field, word_field, ace_at};
ghost use Rattle.acl_nfs4.specs.Spelling.{pad_len};
ghost use Rattle.acl_nfs4.specs.internal.Cursor.{place};
ghost use Rattle.acl_nfs4.specs.Ace.{ace};

use crate::ace::AceRef;
use crate::plain_ascii::begins_plain_ascii;
use crate::who::is_unknown_special;
use crate::xdr::cursor::Cursor;
use crate::xdr::fault::{Fault, Reason};
use crate::xdr::judges::{self, begins_zero, pad_len};
use acl_perm::Profile;
use byteorder::{BigEndian, ByteOrder};

// Reads the next ACE. `plain_ace` reads most ACEs. Any other ACE is judged field by field, which also says which field
// is refused.
#[inline(always)]
pub(crate) fn next_ace<'a>(
    cursor: &mut Cursor<'a>,
    weight: u32,
    profile: Profile,
) -> Result<AceRef<'a>, Fault>
    requires { weight ≤ most_weight }
    ensures exact { Gives (λ x. (ace x, place cursor.new)) result
        (ace_at (profile_of profile) weight (place cursor.old)) }
    ensures light { IfOk result (λ x. weight + count_ones x.mask.bits ≤ most_weight) }
{
    // Each way has a cursor of its own, so that the compiler keeps all of them in registers.
    let mut ahead = *cursor;
    if let Some(ace) = plain_ace(&mut ahead, weight, profile) {
        *cursor = ahead;
        return Ok(ace);
    }
    let mut judged = *cursor;
    let ace = fields(&mut judged, weight, profile)?;
    *cursor = judged;
    Ok(ace)
}

// Reads the next ACE if it is valid, its who is plain ASCII, and a whole word begins with its padding, by tests of many
// bytes at once. `None` says nothing about the ACE. After the test of the length, the compiler leaves out the test that
// each field is there.
#[tactic(auto, unfolding(crate::specs::internal::Reading::ace_at))]
#[inline(always)]
fn plain_ace<'a>(cursor: &mut Cursor<'a>, weight: u32, profile: Profile) -> Option<AceRef<'a>>
    requires { weight ≤ most_weight }
    ensures exact { IfSome result (λ x. ace_at (profile_of profile) weight (place cursor.old)
        ≡ Ok (ace x, place cursor.new)) }
    ensures light { IfSome result (λ x. weight + count_ones x.mask.bits ≤ most_weight) }
{
    if cursor.rest.len() < 36 {
        return None;
    }
    let (_, number) = word(cursor).ok()?;
    let kind = judges::kind_of(number).ok()?;
    let (_, number) = word(cursor).ok()?;
    let flags = judges::flags_of(number, profile).ok()?;
    let (_, number) = word(cursor).ok()?;
    let mask = judges::mask_of(number, weight, profile).ok()?;
    let (_, number) = word(cursor).ok()?;
    let len = judges::who_len_of(number).ok()?;
    let rest = cursor.rest;
    let who = bytes(cursor, len).ok()?;
    if !begins_plain_ascii(rest, len) || is_unknown_special(who) {
        return None;
    }
    let rest = cursor.rest;
    let pad = pad_len(len);
    if rest.len() < 4 || !begins_zero(rest, pad) {
        return None;
    }
    bytes(cursor, pad).ok()?;
    Some(AceRef {
        kind,
        flags,
        mask,
        who,
    })
}

// Reads the next ACE field by field, up to the first field that is refused.
#[tactic(auto, unfolding(crate::specs::internal::Reading::ace_at))]
#[inline(never)]
fn fields<'a>(cursor: &mut Cursor<'a>, weight: u32, profile: Profile) -> Result<AceRef<'a>, Fault>
    requires { weight ≤ most_weight }
    ensures exact { Gives (λ x. (ace x, place cursor.new)) result
        (ace_at (profile_of profile) weight (place cursor.old)) }
    ensures light { IfOk result (λ x. weight + count_ones x.mask.bits ≤ most_weight) }
{
    let (offset, number) = word(cursor)?;
    let kind = placed(offset, judges::kind_of(number))?;
    let (offset, number) = word(cursor)?;
    let flags = placed(offset, judges::flags_of(number, profile))?;
    let (offset, number) = word(cursor)?;
    let mask = placed(offset, judges::mask_of(number, weight, profile))?;
    let (offset, number) = word(cursor)?;
    let len = placed(offset, judges::who_len_of(number))?;
    let offset = offset_of(cursor);
    let who = placed(offset, judges::who_of(bytes(cursor, len)?))?;
    padding(cursor, len)?;
    Ok(AceRef {
        kind,
        flags,
        mask,
        who,
    })
}

// Reads the next word, and says at which offset it is.
#[inline(always)]
pub(crate) fn word(cursor: &mut Cursor<'_>) -> Result<(u64, u32), Fault>
    ensures number { Gives (λ x. (x.1, place cursor.new)) result
        (word_field (λ n. Ok n) (place cursor.old)) }
    ensures offset { IfOk result (λ x. x.0 ≡ (place cursor.old).at) }
{
    let offset = offset_of(cursor);
    let front = bytes(cursor, 4)?;
    Ok((offset, BigEndian::read_u32(front)))
}

#[inline(always)]
pub(crate) fn padding(cursor: &mut Cursor<'_>, len: usize) -> Result<(), Fault>
    ensures { Gives (λ _. (tt, place cursor.new)) result
        (field (pad_len len) padding_of (place cursor.old)) }
{
    let offset = offset_of(cursor);
    placed(offset, judges::padding_of(bytes(cursor, pad_len(len))?))
}

// Returns the value of a field, or its fault at its first byte.
#[inline(always)]
pub(crate) fn placed<T>(offset: u64, judged: Result<T, Reason>) -> Result<T, Fault>
    ensures { Placed offset judged result }
{
    match judged {
        Ok(value) => Ok(value),
        Err(reason) => Err(Fault { offset, reason }),
    }
}

// Reads the next `n` bytes, or fails with Truncated at the place where they should begin.
#[inline(always)]
pub(crate) fn bytes<'a>(cursor: &mut Cursor<'a>, n: usize) -> Result<&'a [u8], Fault>
    ensures { Gives (λ x. (x.now, place cursor.new)) result
        (field n (λ bytes. Ok bytes) (place cursor.old)) }
{
    if cursor.rest.len() < n {
        return Err(Fault {
            offset: offset_of(cursor),
            reason: Reason::Truncated,
        });
    }
    let (front, rest) = cursor.rest.split_at(n);
    cursor.rest = rest;
    Ok(front)
}

// Returns how many bytes were read. No cursor keeps this number, because only a fault needs it.
#[inline(always)]
pub(crate) fn offset_of(cursor: &Cursor<'_>) -> u64
    ensures { result ≡ (place cursor.now).at }
{
    (cursor.len - cursor.rest.len()) as u64
}
