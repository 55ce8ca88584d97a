//! Finds the first place of a byte, by looking at many bytes at once.
ghost use Rattle.std.specs.Prelude.{◌≡◌, ◌≤◌, ◌<◌, ◌+◌, ◌==◌, length, position};
ghost use Rattle.std.specs.List.{position_or_len};
ghost use Rattle.acl_perm.specs.internal.Places.{IsPlaceIn};

use std::simd::prelude::*;

// The number of bytes that are looked at together in a short text.
const SHORT: usize = 8;

// The number of bytes that are looked at together in a long text.
const LONG: usize = 16;

// The greatest number of bytes that are looked at together: each is one bit of a number.
const MOST_LANES: usize = 64;

/// Returns the first place of a byte, if it is among these bytes.
pub fn place_of(bytes: &[u8], wanted: u8) -> Option<usize>
    ensures { result ≡ position (λ b. b == wanted) bytes.now }
{
    let len = bytes.len();
    let place = match len {
        0..SHORT => return bytes.iter().position(|byte| *byte == wanted),
        SHORT..LONG => place_in_short(bytes, wanted),
        _ => place_in_long(bytes, wanted),
    };
    if place < len { Some(place) } else { None }
}

// Returns the first place in a short text, or the number of its bytes: looks at the first eight bytes, and then at the
// last eight.
#[inline(always)]
fn place_in_short(bytes: &[u8], wanted: u8) -> usize
    requires least { SHORT ≤ length bytes.now }
    requires most { length bytes.now ≤ LONG }
    ensures { result ≡ position_or_len (λ b. b == wanted) bytes.now }
{
    let place = place_in::<SHORT>(bytes, 0, wanted);
    if place < SHORT {
        return place;
    }
    let last = bytes.len() - SHORT;
    last + place_in::<SHORT>(bytes, last, wanted)
}

// Returns the first place in a long text, or the number of its bytes: looks at sixteen bytes at a time, and then at the
// last sixteen.
#[inline(always)]
fn place_in_long(bytes: &[u8], wanted: u8) -> usize
    requires { LONG ≤ length bytes.now }
    ensures { result ≡ position_or_len (λ b. b == wanted) bytes.now }
{
    let last = bytes.len() - LONG;
    let mut at = 0;
    while at < last {
        let place = place_in::<LONG>(bytes, at, wanted);
        if place < LONG {
            return at + place;
        }
        at += LONG;
    }
    last + place_in::<LONG>(bytes, last, wanted)
}

// Returns which of the N bytes from `at` on is the first that is wanted, or N.
#[inline(always)]
fn place_in<const N: usize>(bytes: &[u8], at: usize, wanted: u8) -> usize
    requires lanes { N ≤ MOST_LANES }
    requires inside { at + N ≤ length bytes.now }
    ensures { IsPlaceIn wanted bytes.now at N result }
{
    let hits = Simd::<u8, N>::from_slice(&bytes[at..])
        .simd_eq(Simd::<u8, N>::splat(wanted))
        .to_bitmask();
    if hits == 0 {
        N
    } else {
        hits.trailing_zeros() as usize
    }
}
