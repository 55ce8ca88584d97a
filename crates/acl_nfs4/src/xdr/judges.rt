//! What each field of the layout may hold. The same functions judge fields in memory, in a stream and from a source.
ghost use Rattle.std.specs.Prelude.{◌≡◌, ◌==◌, ◌+◌, ◌<◌, ◌≤◌, IfOk, IsTrue, count_ones, false, true, length, take};
ghost use Rattle.std.specs.List.{list_all};
ghost use Rattle.acl_perm.specs.Profile.{profile_of};
ghost use Rattle.acl_nfs4.specs.Fields.{count_of, kind_of, flags_of, mask_of, who_len_of, who_of, who_reason, padding_of};
ghost use Rattle.acl_nfs4.specs.Limits.{most_aces, most_weight};
ghost use Rattle.acl_nfs4.specs.internal.Reading.{Gives, low_bytes};
ghost use Rattle.acl_nfs4.specs.Spelling.{pad_len, word_size};
ghost use Rattle.acl_nfs4.specs.Who.{is_no_who_len};

use crate::limits::{MOST_ACES, is_too_heavy};
use crate::who::{WhoFault, is_no_who_len, judge_text};
use crate::xdr::fault::Reason;
use acl_perm::{Flags, Kind, Mask, Profile};
use byteorder::{ByteOrder, LittleEndian};

/// Returns the number as a number of ACEs, or refuses it as too great.
#[inline(always)]
pub fn count_of(number: u32) -> Result<u32, Reason>
    ensures exact { Gives (λ x. x) result (count_of number) }
    ensures small { IfOk result (λ x. x ≤ most_aces) }
{
    if number > MOST_ACES {
        return Err(Reason::TooManyAces);
    }
    Ok(number)
}

/// Returns the kind that a number means, or why it is refused.
#[inline(always)]
pub fn kind_of(number: u32) -> Result<Kind, Reason>
    ensures { Gives (λ x. x) result (kind_of number) }
{
    match number {
        0 => Ok(Kind::Allow),
        1 => Ok(Kind::Deny),
        2 | 3 => Err(Reason::AuditOrAlarm),
        _ => Err(Reason::AceType),
    }
}

/// Returns the flags, or why they are refused.
#[tactic(auto, using(crate::proofs::list::Within::within))]
#[inline(always)]
pub fn flags_of(number: u32, profile: Profile) -> Result<Flags, Reason>
    ensures { Gives (λ x. x.bits) result (flags_of (profile_of profile) number) }
{
    if number & profile.flags.bits() as u32 != number {
        return Err(Reason::FlagBits);
    }
    Ok(Flags { bits: number as u8 })
}

/// Returns the mask, or why it is refused after ACEs of this weight.
#[tactic(auto, using(crate::proofs::list::Within::within))]
#[inline(always)]
pub fn mask_of(number: u32, weight: u32, profile: Profile) -> Result<Mask, Reason>
    requires { weight ≤ most_weight }
    ensures exact { Gives (λ x. x.bits) result (mask_of (profile_of profile) weight number) }
    ensures light { IfOk result (λ x. weight + count_ones x.bits ≤ most_weight) }
{
    if number & profile.masks.bits() != number {
        return Err(Reason::MaskBits);
    }
    if is_too_heavy(weight + number.count_ones()) {
        return Err(Reason::TooHeavy);
    }
    Ok(Mask { bits: number })
}

/// Returns the number as the length of a who, or refuses it if no who has this length.
#[inline(always)]
pub fn who_len_of(number: u32) -> Result<usize, Reason>
    ensures exact { Gives (λ x. x) result (who_len_of number) }
    ensures some { IfOk result (λ x. is_no_who_len x ≡ false) }
{
    let len = number as usize;
    if is_no_who_len(len) {
        return Err(Reason::WhoLength);
    }
    Ok(len)
}

/// Returns the who, or why it is refused. Its length is already judged.
#[inline(always)]
pub(crate) fn who_of(bytes: &[u8]) -> Result<&[u8], Reason>
    requires { is_no_who_len (length bytes.now) ≡ false }
    ensures { Gives (λ x. x.now) result (who_of bytes.now) }
{
    match judge_text(bytes) {
        Ok(()) => Ok(bytes),
        Err(fault) => Err(who_reason(fault)),
    }
}

#[inline(always)]
pub(crate) fn who_reason(fault: WhoFault) -> Reason
    ensures { result ≡ who_reason fault }
{
    match fault {
        WhoFault::Length => Reason::WhoLength,
        WhoFault::Utf8 => Reason::WhoUtf8,
        WhoFault::Control => Reason::WhoControl,
        WhoFault::Special => Reason::SpecialWho,
    }
}

/// Returns how many zero bytes pad a who of this length, to a multiple of four (RFC 4506, section 4.9).
#[inline(always)]
pub fn pad_len(len: usize) -> usize
    ensures { result ≡ pad_len len }
{
    (4 - len % 4) % 4
}

/// Refuses padding with a byte that is not zero.
#[inline(always)]
pub fn padding_of(bytes: &[u8]) -> Result<(), Reason>
    ensures { Gives (λ x. x) result (padding_of bytes.now) }
{
    if is_zero(bytes) {
        Ok(())
    } else {
        Err(Reason::Padding)
    }
}

#[inline(always)]
fn is_zero(bytes: &[u8]) -> bool
    ensures { result ≡ list_all (λ b. b == 0) bytes.now }
{
    bytes.iter().all(|byte| *byte == 0)
}

/// Returns whether the first `n` bytes are zero, by a test of the first word. `true` is certain.
#[inline(always)]
pub(crate) fn begins_zero(bytes: &[u8], n: usize) -> bool
    requires word { word_size ≤ length bytes.now }
    requires few { n < word_size }
    ensures { IsTrue result → list_all (λ b. b == 0) (take n bytes.now) ≡ true }
{
    LittleEndian::read_u32(bytes) & low_bytes(n) == 0
}

// Returns the word in which all bits of the lowest `n` bytes are set.
#[inline(always)]
fn low_bytes(n: usize) -> u32
    requires { n < word_size }
    ensures { result ≡ low_bytes n }
{
    match n {
        0 => 0,
        1 => 0xff,
        2 => 0xffff,
        _ => 0xff_ffff,
    }
}
