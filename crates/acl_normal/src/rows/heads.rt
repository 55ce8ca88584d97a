//! The head of a principal: a number by which most principals can be compared without a look at their names.
ghost use Rattle.std.specs.Prelude.{◌≡◌, drop, get_or, length, option_map, take};
ghost use Rattle.acl_perm.specs.Order.{principal_cmp};
ghost use Rattle.acl_perm.specs.Principal.{principal};
ghost use Rattle.acl_nfs4.specs.internal.Progress.{IsBytes};
ghost use Rattle.acl_normal.specs.internal.rows.Heads.{AllBegin, HasHead, IsHeadOf, count_to, given_name, head_bytes, head_from, is_whole, more_bytes};
ghost use Rattle.acl_normal.specs.internal.Shown.{aces_in};

use crate::ace_principal::whom;
use acl_nfs4::AceRef;
use acl_perm::Principal;
use std::cmp::Ordering;

/// A principal, and its head with the first six bytes of the name.
#[derive(Clone, Copy)]
pub(crate) struct HeadedPrincipal<'a> {
    pub(crate) principal: Principal<'a>,
    head: u64,
    ghost headed: { HasHead head principal },
}

impl<'a> HeadedPrincipal<'a> {
    pub(crate) fn new(principal: Principal<'a>) -> HeadedPrincipal<'a>
        ensures { result.principal ≡ principal.entry }
    {
        HeadedPrincipal {
            principal,
            head: head(principal, 0),
        }
    }

    /// Compares the principals by their heads. Only if these are equal and do not have the whole names are the names
    /// read.
    pub(crate) fn compared(&self, other: &HeadedPrincipal<'_>) -> Ordering
        ensures { result
            ≡ principal_cmp (principal self.now.principal) (principal other.now.principal) }
    {
        if self.head != other.head {
            return self.head.cmp(&other.head);
        }
        if is_whole(self.head) {
            return Ordering::Equal;
        }
        self.principal.cmp(&other.principal)
    }
}

/// Returns the head of a principal: the rank in the highest byte, below it the six bytes of the name that follow its
/// first `common` bytes, and in the lowest byte the number of bytes that follow them. A number of 7 means more than six
/// bytes.
pub(crate) fn head(p: Principal<'_>, common: usize) -> u64
    ensures { IsHeadOf common result (principal p.entry) }
{
    packed(p.rank(), behind(p.name(), common))
}

/// Returns whether a head has the whole name, so that equal heads need no look at the names.
pub(crate) fn is_whole(head: u64) -> bool
    ensures { result ≡ is_whole head }
{
    head % 256 < 7
}

// The bytes of a name after the first `count` bytes.
fn behind(name: &[u8], count: usize) -> &[u8]
    ensures rest { result.now ≡ drop count name.now }
    ensures bytes { IsBytes name.now }
{
    match name.get(count..) {
        Some(rest) => rest,
        None => &[],
    }
}

// The rank in the highest byte, below it the first six bytes, and in the lowest byte the number of bytes.
fn packed(rank: u8, bytes: &[u8]) -> u64
    ensures { result ≡ head_from rank head_bytes bytes.now (count_to more_bytes bytes.now) }
{
    u64::from_be_bytes([
        rank,
        byte(bytes, 0),
        byte(bytes, 1),
        byte(bytes, 2),
        byte(bytes, 3),
        byte(bytes, 4),
        byte(bytes, 5),
        count(bytes),
    ])
}

// The number of bytes. A number of 7 means more than six bytes.
fn count(bytes: &[u8]) -> u8
    ensures { result ≡ count_to more_bytes bytes.now }
{
    if bytes.len() < 7 {
        bytes.len() as u8
    } else {
        7
    }
}

// The byte of a name at a place, or zero after the end of the name.
fn byte(name: &[u8], place: usize) -> u8
    ensures { result ≡ get_or name.now place 0 }
{
    name.get(place).copied().unwrap_or(0)
}

/// Returns the bytes with which the names of all users and groups begin. It stops and returns no bytes once they are
/// fewer than four.
pub(crate) fn common_start<'a>(aces: &[AceRef<'a>]) -> &'a [u8]
    ensures { AllBegin result.now (aces_in aces.now) }
{
    let names = aces.iter().find_map(|ace| given_name(whom(ace)));
    let mut start = names.unwrap_or(&[]);
    for ace in aces {
        // After so short a start, the six bytes of a head mostly distinguish the names.
        if start.len() < 4 {
            return &[];
        }
        if let Some(name) = given_name(whom(ace)) {
            start = shared_start(start, name);
        }
    }
    start
}

// The name of a user or of a group.
fn given_name(p: Principal<'_>) -> Option<&[u8]>
    ensures { option_map (λ name. name.now) result ≡ given_name (principal p.entry) }
{
    match p {
        Principal::User(name) | Principal::GroupNamed(name) => Some(name),
        _ => None,
    }
}

// The bytes with which both begin.
fn shared_start<'a>(bytes: &'a [u8], others: &[u8]) -> &'a [u8]
    ensures first { result.now ≡ take (length result.now) bytes.now }
    ensures second { result.now ≡ take (length result.now) others.now }
{
    if others.starts_with(bytes) {
        return bytes;
    }
    for (place, byte) in bytes.iter().enumerate() {
        if others.get(place) != Some(byte) {
            return &bytes[..place];
        }
    }
    bytes
}
