//! A test for plain ASCII that looks at many bytes at once. Most whos are plain ASCII, and need no other test.
ghost use Rattle.std.specs.Prelude.{◌≡◌, ◌≤◌, ◌+◌, length, take, IsTrue, true};
ghost use Rattle.std.specs.List.{list_all};
ghost use Rattle.acl_nfs4.specs.internal.Reading.{is_plain_ascii, load, most_lanes, ArePlain};

use std::simd::prelude::*;

// How many bytes one load takes.
const LOAD: usize = 16;

/// Returns whether the first `len` bytes are plain ASCII. `true` is certain, as for `is_plain_ascii`. If there are at
/// least 16 bytes, one load of them is enough for a front of up to 16.
#[tactic(auto, using(crate::proofs::plain_ascii::PlainLanes::plain_front_whole))]
#[inline(always)]
pub(crate) fn begins_plain_ascii(bytes: &[u8], len: usize) -> bool
    requires { len ≤ length bytes.now }
    ensures { IsTrue result → list_all is_plain_ascii (take len bytes.now) ≡ true }
{
    if len > LOAD || bytes.len() < LOAD {
        return is_plain_ascii(&bytes[..len]);
    }
    // The first byte that is not plain is after the front.
    let above = Simd::<u8, LOAD>::from_slice(bytes) - Simd::<u8, LOAD>::splat(0x20);
    let beyond = above.simd_ge(Simd::<u8, LOAD>::splat(0x5f)).to_bitmask();
    beyond.trailing_zeros() as usize >= len
}

/// Returns whether all bytes are plain ASCII. `true` is certain; after `false`, `judge_bytes` of `who` looks at each
/// byte.
#[tactic(auto, using(crate::proofs::plain_ascii::PlainLanes::plain_whole))]
#[inline(always)]
pub(crate) fn is_plain_ascii(bytes: &[u8]) -> bool
    ensures { IsTrue result → list_all is_plain_ascii bytes.now ≡ true }
{
    match bytes.len() {
        0..4 => bytes.iter().all(|byte| *byte >= 0x20 && *byte < 0x7f),
        // The first bytes and the last ones, which may overlap.
        4..8 => are_plain::<4>(bytes, 0) & are_plain::<4>(bytes, bytes.len() - 4),
        8..LOAD => are_plain::<8>(bytes, 0) & are_plain::<8>(bytes, bytes.len() - 8),
        _ => is_long_plain(bytes),
    }
}

// Returns whether 16 bytes or more are plain ASCII. The last 16 are judged whole, also if some of them were judged
// before.
fn is_long_plain(bytes: &[u8]) -> bool
    requires { load ≤ length bytes.now }
    ensures { IsTrue result → ArePlain bytes.now 0 (length bytes.now) }
{
    let last = bytes.len() - LOAD;
    let mut at = 0;
    while at < last {
        if !are_plain::<LOAD>(bytes, at) {
            return false;
        }
        at += LOAD;
    }
    are_plain::<LOAD>(bytes, last)
}

// Returns whether the N bytes from `at` on are plain ASCII. Plain ASCII is 0x20 to 0x7e, so such a byte minus 0x20 is
// below 0x5f. Any other byte minus 0x20 is 0x5f or more, because the subtraction wraps.
#[inline(always)]
fn are_plain<const N: usize>(bytes: &[u8], at: usize) -> bool
    requires lanes { N ≤ most_lanes }
    requires inside { at + N ≤ length bytes.now }
    ensures { IsTrue result → ArePlain bytes.now at (at + N) }
{
    let above = Simd::<u8, N>::from_slice(&bytes[at..]) - Simd::<u8, N>::splat(0x20);
    above.simd_ge(Simd::<u8, N>::splat(0x5f)).to_bitmask() == 0
}
