//! Reads a SID at a place of a value, or from its own bytes.
ghost use Rattle.std.specs.Prelude.{◌≡◌, ◌+◌, ◌*◌, ◌<◌, ◌≤◌, length, option_map, slice_index};
ghost use Rattle.acl_nt.specs.Conditions.{first_unmet, ReadsUnder};
ghost use Rattle.acl_nt.specs.Numbers.{place_limit};
ghost use Rattle.acl_nt.specs.Sid.{sid};
ghost use Rattle.acl_nt.specs.SidAt.{are_sid, sid_at, sid_conditions, sid_of_bytes, sid_words};

use crate::fault::{NtFault, NtReason};
use crate::sid::Sid;
use arrayvec::ArrayVec;
use byteorder::{BigEndian, ByteOrder, LittleEndian};

impl Sid {
    /// Returns the SID that the bytes are (MS-DTYP, section 2.4.2.2), or `None` if they are none.
    pub fn from_bytes(bytes: &[u8]) -> Option<Sid>
        ensures { option_map sid result ≡ sid_of_bytes bytes.now }
    {
        if are_sid(bytes) {
            Some(sid_in(bytes, 0))
        } else {
            None
        }
    }
}

fn are_sid(bytes: &[u8]) -> bool
    ensures { result ≡ are_sid bytes.now }
{
    bytes.len() >= 8
        && (bytes[0] == 1 && (bytes[1] <= 15 && bytes.len() == 8 + 4 * bytes[1] as usize))
}

// Returns what is wrong with the SID at a place, which ends at another place or before it.
#[tactic(auto, unfolding(crate::specs::SidAt::sid_conditions))]
fn sid_fault(bytes: &[u8], at: usize, end: usize) -> Option<NtFault>
    requires inside { end ≤ length bytes.now }
    requires small { at < place_limit }
    ensures { result ≡ first_unmet (sid_conditions bytes.now at end) }
{
    if end < at + 8 {
        return Some(NtFault::new(at, NtReason::Truncated));
    }
    if bytes[at] != 1 {
        return Some(NtFault::new(at, NtReason::SidRevision));
    }
    let count = bytes[at + 1] as usize;
    if count > 15 {
        return Some(NtFault::new(at + 1, NtReason::SidCount));
    }
    if end < at + 8 + 4 * count {
        return Some(NtFault::new(at + 8, NtReason::Truncated));
    }
    None
}

/// Returns the SID at a place, which ends at another place or before it.
#[tactic(auto, unfolding(crate::specs::SidAt::sid_conditions))]
pub(crate) fn read_sid(bytes: &[u8], at: usize, end: usize) -> Result<Sid, NtFault>
    requires inside { end ≤ length bytes.now }
    requires small { at < place_limit }
    ensures { ReadsUnder sid result (sid_conditions bytes.now at end) (sid_at bytes.now at) }
{
    match sid_fault(bytes, at, end) {
        Some(fault) => Err(fault),
        None => Ok(sid_in(bytes, at)),
    }
}

// Returns the SID at a place.
#[tactic(auto, unfolding(crate::specs::SidAt::sid_at))]
fn sid_in(bytes: &[u8], at: usize) -> Sid
    requires head { at + 8 ≤ length bytes.now }
    requires count { slice_index bytes.now (at + 1) ≤ 15 }
    requires inside { at + 8 + 4 * slice_index bytes.now (at + 1) ≤ length bytes.now }
    requires small { at < place_limit }
    ensures { sid result ≡ sid_at bytes.now at }
{
    let count = bytes[at + 1] as usize;
    let words = words_of(&bytes[at + 8..at + 8 + 4 * count]);
    Sid {
        authority: BigEndian::read_u48(&bytes[at + 2..]),
        words,
    }
}

fn words_of(bytes: &[u8]) -> ArrayVec<u32, 15>
    requires { length bytes.now ≤ 60 }
    ensures { result.items ≡ sid_words bytes.now }
{
    let (stored, _) = bytes.as_chunks::<4>();
    let mut words = ArrayVec::new();
    for one in stored {
        words.push(LittleEndian::read_u32(one));
    }
    words
}
