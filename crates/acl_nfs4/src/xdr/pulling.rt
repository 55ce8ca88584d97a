//! The fields of an ACE from a source. Each field is judged before the next is read.
ghost use Rattle.std.specs.Prelude.{◌≡◌, ◌+◌, ◌-◌, ◌<◌, ◌≤◌, IfOk, length};
ghost use Rattle.acl_nfs4.specs.Limits.{longest_who, most_weight};
ghost use Rattle.acl_nfs4.specs.internal.Pulling.{DrawsAce, DrawsBytes, DrawsHead, DrawsWord, DrawsWords};
ghost use Rattle.acl_nfs4.specs.internal.Reading.{offset_limit};
ghost use Rattle.acl_nfs4.specs.Spelling.{longest_ace, word_size};

use crate::limits::LONGEST_WHO;
use crate::list::aces::word_in;
use crate::xdr::fault::{Fault, Reason};
use crate::xdr::judges;
use crate::xdr::reading::placed;
use acl_perm::{Profile, Source};

/// The greatest number of bytes in an ACE. A who of the greatest length has no padding.
pub(crate) const LONGEST_ACE: usize = 16 + LONGEST_WHO;

/// An ACE at the front of a buffer: how many bytes it has there, and how many bits its mask has.
#[derive(Clone, Copy)]
pub(crate) struct Pulled {
    pub len: usize,
    pub weight: u32,
}

/// Reads the next ACE of the source. Each pull asks for no more bytes than the field that is being read lacks, and a
/// field is judged before the next one is read.
#[inline(always)]
pub(crate) fn pull_ace<S: Source>(
    source: &mut S,
    room: &mut [u8],
    next: NextAce,
) -> Result<Pulled, Fault>
    requires room { length room.old ≡ longest_ace }
    requires fits { next.offset + longest_ace < offset_limit }
    requires light { next.weight ≤ most_weight }
    ensures { DrawsAce next (S.remaining source.old) (S.remaining source.new)
        (S.failure_count source.old) (S.failure_count source.new) room.new result }
{
    let words = pull_words(source, room, next)?;
    let who_end = 16 + words.len;
    fill(source, room, 16, who_end, next.offset + 16)?;
    placed(
        (next.offset + 16) as u64,
        judges::who_of(&room[16..who_end]),
    )?;
    let end = who_end + judges::pad_len(words.len);
    fill(source, room, who_end, end, next.offset + who_end)?;
    placed(
        (next.offset + who_end) as u64,
        judges::padding_of(&room[who_end..end]),
    )?;
    Ok(Pulled {
        len: end,
        weight: words.weight,
    })
}

// Reads the four words of an ACE. Each is judged before the next is read.
#[inline(always)]
fn pull_words<S: Source>(source: &mut S, room: &mut [u8], next: NextAce) -> Result<Words, Fault>
    requires room { length room.old ≡ longest_ace }
    requires fits { next.offset + longest_ace < offset_limit }
    requires light { next.weight ≤ most_weight }
    ensures drawn { DrawsWords next (S.remaining source.old) (S.remaining source.new)
        (S.failure_count source.old) (S.failure_count source.new) room.new result }
    ensures short { IfOk result (λ words. words.len ≤ longest_who) }
{
    pull_head(source, room, next)?;
    let rights = word(source, room, 8, next.offset + 8)?;
    let mask = placed(
        (next.offset + 8) as u64,
        judges::mask_of(rights, next.weight, next.profile),
    )?;
    let number = word(source, room, 12, next.offset + 12)?;
    let len = placed((next.offset + 12) as u64, judges::who_len_of(number))?;
    Ok(Words {
        len,
        weight: mask.bits().count_ones(),
    })
}

// Reads the kind and the flags of an ACE. The kind is judged before the flags are read.
#[inline(always)]
fn pull_head<S: Source>(source: &mut S, room: &mut [u8], next: NextAce) -> Result<(), Fault>
    requires room { length room.old ≡ longest_ace }
    requires fits { next.offset + longest_ace < offset_limit }
    ensures { DrawsHead next (S.remaining source.old) (S.remaining source.new)
        (S.failure_count source.old) (S.failure_count source.new) room.new result }
{
    let kind = word(source, room, 0, next.offset)?;
    placed(next.offset as u64, judges::kind_of(kind))?;
    let flags = word(source, room, 4, next.offset + 4)?;
    placed(
        (next.offset + 4) as u64,
        judges::flags_of(flags, next.profile),
    )?;
    Ok(())
}

/// Where the next ACE begins, how many bits the masks of the earlier ACEs have, and which flags and rights it may have.
#[derive(Clone, Copy)]
pub(crate) struct NextAce {
    pub offset: usize,
    pub weight: u32,
    pub profile: Profile,
}

// What the four words of an ACE say about the rest: the length of its who, and how many bits its mask has.
#[derive(Clone, Copy)]
struct Words {
    len: usize,
    weight: u32,
}

// Reads the next four bytes of the source, and returns them as a number. They are kept in the buffer from `held` on.
#[inline(always)]
pub(crate) fn word<S: Source>(
    source: &mut S,
    room: &mut [u8],
    held: usize,
    offset: usize,
) -> Result<u32, Fault>
    requires { held + word_size ≤ length room.old }
    ensures { DrawsWord offset held room.old room.new (S.remaining source.old)
        (S.remaining source.new) (S.failure_count source.old) (S.failure_count source.new) result }
{
    fill(source, room, held, held + 4, offset)?;
    Ok(word_in(room, held))
}

// Reads the next bytes of the source, into the buffer from `held` to `end`. If the source ends or fails before that,
// the fault has this offset.
#[inline(always)]
fn fill<S: Source>(
    source: &mut S,
    room: &mut [u8],
    held: usize,
    end: usize,
    offset: usize,
) -> Result<(), Fault>
    requires order { held ≤ end }
    requires inside { end ≤ length room.old }
    ensures { DrawsBytes offset held (end - held) room.old room.new (S.remaining source.old)
        (S.remaining source.new) (S.failure_count source.old) (S.failure_count source.new) result }
{
    let mut filled = held;
    while filled < end {
        match source.pull(&mut room[filled..end]) {
            Ok(0) => {
                return Err(Fault {
                    offset: offset as u64,
                    reason: Reason::Truncated,
                });
            }
            Ok(n) => filled += n,
            Err(_) => {
                return Err(Fault {
                    offset: offset as u64,
                    reason: Reason::Read,
                });
            }
        }
    }
    Ok(())
}
