//! Reads words one after the other, and reports the offset of a word that is refused.
ghost use Rattle.std.specs.Prelude.{◌≡◌, Ok};
ghost use Rattle.acl_nfs4.specs.internal.Reading.{Gives};
ghost use Rattle.acl_nfs4.specs.internal.Cursor.{place};
ghost use Rattle.acl_forms.specs.Words.{acl_flags_of, listed, start, word_at};
ghost use Rattle.acl_forms.specs.internal.PlacedWords.{PlacedWord};

use crate::acl_flags::AclFlags;
use crate::fault::{ReadFault, ReadReason};
use acl_nfs4::Reason;
use acl_nfs4::internal::Cursor;
use byteorder::{BigEndian, ByteOrder};
use std::alloc::AllocError;

impl From<AllocError> for ReadFault {
    ghost use Rattle.acl_forms.specs.ReadFaults.{no_memory_left};

    ghost from_gives = { λ _ fault. fault ≡ no_memory_left };

    fn from(_: AllocError) -> ReadFault {
        ReadFault {
            offset: 0,
            reason: ReadReason::List(Reason::Memory),
        }
    }
}

/// Returns the cursor before the first byte.
pub(crate) fn start(bytes: &[u8]) -> Cursor<'_>
    ensures { place result ≡ start bytes.now }
{
    Cursor {
        len: bytes.len(),
        rest: bytes,
    }
}

pub(crate) fn acl_flags(cursor: &mut Cursor<'_>) -> Result<AclFlags, ReadFault>
    ensures { Gives (λ x. (x.bits, place cursor.new)) result
        (word_at acl_flags_of (place cursor.old)) }
{
    let offset = offset_of(cursor);
    placed(offset, acl_flags_of(word(cursor)?))
}

fn acl_flags_of(number: u32) -> Result<AclFlags, ReadReason>
    ensures { Gives (λ x. x.bits) result (acl_flags_of number) }
{
    AclFlags::new(number).ok_or(ReadReason::AclFlagBits)
}

/// Returns the value of a field, or its fault at its first byte.
#[inline(always)]
pub(crate) fn placed<T>(offset: u64, judged: Result<T, ReadReason>) -> Result<T, ReadFault>
    ensures { PlacedWord offset judged result }
{
    match judged {
        Ok(value) => Ok(value),
        Err(reason) => Err(ReadFault { offset, reason }),
    }
}

/// Returns the value of a field of which this is said for all lists, or its fault at its first byte.
#[inline(always)]
pub(crate) fn placed_listed<T>(offset: u64, judged: Result<T, Reason>) -> Result<T, ReadFault>
    ensures { PlacedWord offset (listed judged) result }
{
    match judged {
        Ok(value) => Ok(value),
        Err(reason) => Err(ReadFault {
            offset,
            reason: ReadReason::List(reason),
        }),
    }
}

/// Reads the next word, or fails with Truncated at the place where it should begin.
#[inline(always)]
pub(crate) fn word(cursor: &mut Cursor<'_>) -> Result<u32, ReadFault>
    ensures { Gives (λ x. (x, place cursor.new)) result
        (word_at (λ n. Ok n) (place cursor.old)) }
{
    if cursor.rest.len() < 4 {
        return Err(ReadFault {
            offset: offset_of(cursor),
            reason: ReadReason::List(Reason::Truncated),
        });
    }
    let (front, rest) = cursor.rest.split_at(4);
    cursor.rest = rest;
    Ok(BigEndian::read_u32(front))
}

/// Returns how many bytes were read. No cursor keeps this number, because only a fault needs it.
#[inline(always)]
pub(crate) fn offset_of(cursor: &Cursor<'_>) -> u64
    ensures { result ≡ (place cursor.now).at }
{
    (cursor.len - cursor.rest.len()) as u64
}
