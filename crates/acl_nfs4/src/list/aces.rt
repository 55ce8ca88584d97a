//! The ACEs of a list, one after the other, from bytes that are already judged.
ghost use Rattle.std.specs.Prelude.{◌≡◌, ◌+◌, ◌≤◌, ◌↔◌, ℕ, IsTrue, List, ◌++◌, length};
ghost use Rattle.acl_perm.specs.Profile.{full, profile_of};
ghost use Rattle.acl_nfs4.specs.Ace.{Ace, ace};
ghost use Rattle.acl_nfs4.specs.Limits.{most_weight};
ghost use Rattle.acl_nfs4.specs.Spelling.{piece, word_size, Fits, IsAce};
ghost use Rattle.acl_nfs4.specs.Spelling as spelled;
ghost use Rattle.acl_nfs4.specs.Within.{IsWithin};
ghost use Rattle.acl_nfs4.specs.Fields.{number_at};
ghost use Rattle.acl_nfs4.specs.internal.Body.{BeginsWithAce};

use crate::ace::AceRef;
use acl_perm::{Flags, Kind, Mask, Profile};
use byteorder::{BigEndian, ByteOrder};
use std::alloc::AllocError;
use std::marker::Model;

/// An iterator over the ACEs of a list, in order. It knows how many are left, and takes no memory.
#[derive(Drop)]
pub struct Aces<'a> {
    pub(crate) left: u32,
    pub(crate) rest: &'a [u8],
}

impl<'a> Model for Aces<'a> {
    ghost use Rattle.std.specs.Prelude.{List};
    ghost use Rattle.acl_nfs4.specs.Ace.{Ace};
    ghost use Rattle.acl_nfs4.specs.internal.Body.{aces_of, IsBody};

    ghost Value = { List Ace };

    ghost view = { λ s. aces_of s.left s.rest.now };

    ghost invariant = { λ s. IsBody s.left s.rest.now };
}

impl<'a> Iterator for Aces<'a> {
    ghost use Rattle.std.specs.Prelude.{IfSome};
    ghost use Rattle.std.specs.Iterator.{YieldsFirstBy, item_count};
    ghost use Rattle.acl_perm.specs.Profile.{full};
    ghost use Rattle.acl_nfs4.specs.Ace.{ace};
    ghost use Rattle.acl_nfs4.specs.Spelling.{IsAce};

    type Item = AceRef<'a>;

    ghost next_gives = { λ old item new. YieldsFirstBy ace (λ rest. rest) old item new
        × IfSome item (λ a. IsAce full (ace a)) };

    ghost remaining = { item_count (λ rest. rest) };

    fn next(&mut self) -> Option<AceRef<'a>> {
        if self.left == 0 {
            return None;
        }
        let first = first_ace(self.rest);
        self.left -= 1;
        self.rest = first.rest;
        Some(first.ace)
    }
}

impl<'a> ExactSizeIterator for Aces<'a> {
    fn len(&self) -> usize {
        self.left as usize
    }
}

impl<'a> Clone for Aces<'a> {
    ghost use Rattle.std.specs.Prelude.{◌≡◌, ⊤};

    ghost is_clone = { λ aces other. other ≡ aces };

    ghost is_infallible = { λ _. ⊤ };

    fn clone(&self) -> Result<Aces<'a>, AllocError> {
        Ok(Aces {
            left: self.left,
            rest: self.rest,
        })
    }
}

// Returns the ACE at the front of bytes that are already judged, without judging it again.
fn first_ace(bytes: &[u8]) -> FirstAce<'_>
    requires { BeginsWithAce bytes.now }
    ensures { (a : Ace) (more : List ℕ) → IsAce full a → bytes.now ≡ piece a ++ more
        → (ace result.ace ≡ a) × (result.rest.now ≡ more) }
{
    let kind = if word_in(bytes, 0) == 0 {
        Kind::Allow
    } else {
        Kind::Deny
    };
    let flags = Flags {
        bits: word_in(bytes, 4) as u8,
    };
    let mask = Mask {
        bits: word_in(bytes, 8),
    };
    let len = word_in(bytes, 12) as usize;
    let (_, after) = bytes.split_at(16);
    let (who, _) = after.split_at(len);
    let (_, rest) = bytes.split_at((len + 19) / 4 * 4);
    let ace = AceRef {
        kind,
        flags,
        mask,
        who,
    };
    FirstAce { ace, rest }
}

// An ACE, and the bytes after it.
#[derive(Drop)]
struct FirstAce<'a> {
    ace: AceRef<'a>,
    rest: &'a [u8],
}

pub(crate) fn word_in(bytes: &[u8], at: usize) -> u32
    requires { at + word_size ≤ length bytes.now }
    ensures { result ≡ number_at at bytes.now }
{
    BigEndian::read_u32(&bytes[at..])
}

// Returns whether the profile has every flag and every right of every ACE.
pub(crate) fn fit(aces: Aces<'_>, profile: Profile) -> bool
    ensures { IsTrue result ↔ Fits (profile_of profile) aces.entry }
{
    for ace in aces {
        if !fits_ace(&ace, profile) {
            return false;
        }
    }
    true
}

#[tactic(auto, using(crate::proofs::list::Within::tests))]
fn fits_ace(ace: &AceRef<'_>, profile: Profile) -> bool
    ensures { IsTrue result
        ↔ (IsWithin profile.flags.bits ace.now.flags.bits
        × IsWithin profile.masks.bits ace.now.mask.bits) }
{
    profile.flags.contains(ace.flags) && profile.masks.contains(ace.mask)
}

// Returns the number of mask bits that are set, over all ACEs.
pub(crate) fn weight_of(aces: Aces<'_>) -> u32
    requires { spelled.weight aces ≤ most_weight }
    ensures { result ≡ spelled.weight aces.entry }
{
    let mut weight = 0;
    for ace in aces {
        weight += ace.mask.bits().count_ones();
    }
    weight
}
