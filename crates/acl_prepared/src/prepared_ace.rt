//! An ACE in the bytes of a prepared list: a number of eight bytes, and the name of a user or of a group.
ghost use Rattle.std.specs.Prelude.{◌≡◌, ◌++◌, ◌<◌, ◌≤◌, ◌%◌, ◌==◌, if◌then◌else◌, IfSome, IsSome, List, ℕ, OnOk, length};
ghost use Rattle.acl_perm.specs.Order.{principal_name, principal_rank};
ghost use Rattle.acl_perm.specs.Principal as plain;
ghost use Rattle.acl_perm.specs.Principal.{principal};
ghost use Rattle.acl_perm.specs.Profile.{full};
ghost use Rattle.acl_perm.specs.declared.kind.Kind.TheVariants.{Allow, Deny};
ghost use Rattle.acl_nfs4.specs.Ace.{Ace, ace};
ghost use Rattle.acl_nfs4.specs.Limits.{longest_who};
ghost use Rattle.acl_nfs4.specs.Spelling.{IsAce};
ghost use Rattle.acl_nfs4.specs.Who.{IsWho, principal_of};
ghost use Rattle.acl_prepared.specs.Prepared.{ace_number, ends_hash, name_hash, prepared_ace, short_hash, sort_number};
ghost use Rattle.acl_prepared.specs.internal.PreparedBody.{IsReadAs, sort_count};

use acl_nfs4::AceRef;
use acl_perm::{Kind, Mask, Principal};
use std::alloc::AllocError;

// What the sort, the hash and the length are multiplied by in the number of an ACE.
const SORT: u64 = 1 << 32;

const HASH: u64 = 1 << 40;

const LENGTH: u64 = 1 << 48;

// Odd numbers with bits in all places, by which the hash of a name multiplies its first and its last eight bytes.
const FIRST: u64 = 0x9e37_79b9_7f4a_7c15;

const LAST: u64 = 0xc2b2_ae3d_27d4_eb4f;

// What the highest byte of a number is multiplied by.
const HIGHEST: u64 = 1 << 56;

/// An ACE that was read from a prepared list, and the bytes after it.
#[derive(Clone, Copy)]
pub(crate) struct PreparedAce<'a> {
    pub mask: Mask,
    pub kind: Kind,
    pub whom: Principal<'a>,
    pub hash: u8,
    pub rest: &'a [u8],
}

/// Adds the bytes of an ACE at the end. If memory runs out, it may have added some of them.
pub(crate) fn push_prepared(bytes: &mut Vec<u8>, item: &AceRef<'_>) -> Result<(), AllocError>
    requires { IsAce full (ace item.now) }
    ensures { OnOk result (bytes.new.items ≡ bytes.old.items ++ prepared_ace (ace item.now)) }
{
    let whom = item.principal();
    let number = number_of(whom, item.kind, item.mask);
    bytes.extend_from_slice(&number.to_le_bytes())?;
    bytes.extend_from_slice(whom.name())
}

fn number_of(whom: Principal<'_>, kind: Kind, mask: Mask) -> u64
    requires { length (principal_name (principal whom)) ≤ longest_who }
    ensures { result ≡ ace_number (principal whom.entry) kind mask.bits }
{
    let name = whom.name();
    let sort = sort_of(whom, kind);
    mask.bits() as u64 + SORT * sort + HASH * name_hash(name) as u64 + LENGTH * name.len() as u64
}

/// Returns the kind of an ACE, and which of the five principals it names, as one number.
pub(crate) fn sort_of(whom: Principal<'_>, kind: Kind) -> u64
    ensures value { result ≡ sort_number (principal whom.entry) kind }
    ensures small { result < sort_count }
{
    kind.number() as u64 + 2 * whom.rank() as u64
}

/// Returns the hash of a name: a byte that two different names seldom share. It is computed from both ends of the name,
/// so that it takes the same time for long names.
#[inline(always)]
#[tactic(auto, unfolding(crate::specs::Prepared::name_hash))]
pub(crate) fn name_hash(name: &[u8]) -> u8
    ensures { result ≡ name_hash name.now }
{
    match (name.first_chunk::<8>(), name.last_chunk::<8>()) {
        (Some(first), Some(last)) => ends_hash(first, last),
        _ => short_hash(name),
    }
}

// Returns the hash of a name with these first and last eight bytes.
#[inline(always)]
fn ends_hash(first: &[u8; 8], last: &[u8; 8]) -> u8
    ensures { result ≡ ends_hash first.now last.now }
{
    let first = u64::from_le_bytes(*first).wrapping_mul(FIRST);
    let last = u64::from_le_bytes(*last).wrapping_mul(LAST);
    (first.wrapping_add(last) / HIGHEST) as u8
}

// Returns the hash of a name of less than eight bytes.
fn short_hash(name: &[u8]) -> u8
    ensures { result ≡ short_hash name.now }
{
    let mut hash: u8 = 0;
    for byte in name {
        hash = hash.wrapping_mul(31).wrapping_add(*byte);
    }
    hash
}

/// Returns the ACE that the bytes begin with, or `None` if they begin with none.
#[inline(always)]
pub(crate) fn first_prepared(bytes: &[u8]) -> Option<PreparedAce<'_>>
    ensures shorter { IfSome result (λ first. length first.rest.now < length bytes.now) }
    ensures first { (a : Ace) (more : List ℕ) → IsAce full a → bytes.now ≡ prepared_ace a ++ more
        → IsSome result × IfSome result (λ first. IsReadAs a first × (first.rest.now ≡ more)) }
{
    let (number, after) = bytes.split_first_chunk::<8>()?;
    let number = u64::from_le_bytes(*number);
    let (name, rest) = after.split_at_checked((number / LENGTH) as usize)?;
    let mask = Mask::new((number % SORT) as u32)?;
    let sort = number / SORT % 256;
    let whom = principal_of(sort / 2, name)?;
    Some(PreparedAce {
        mask,
        kind: kind_of(sort),
        whom,
        hash: (number / HASH % 256) as u8,
        rest,
    })
}

#[inline(always)]
pub(crate) fn kind_of(sort: u64) -> Kind
    ensures { result ≡ (if sort % 2 == 0 then Allow else Deny) }
{
    if sort % 2 == 0 {
        Kind::Allow
    } else {
        Kind::Deny
    }
}

// Returns the principal of this rank and this name, or `None` if there is none.
#[inline(always)]
fn principal_of(rank: u64, name: &[u8]) -> Option<Principal<'_>>
    ensures { (p : plain.Principal) → rank ≡ principal_rank p → name.now ≡ principal_name p
        → IsSome result × IfSome result (λ whom. principal whom ≡ p) }
{
    match rank {
        0 => Some(Principal::Owner),
        1 => Some(Principal::User(name)),
        2 => Some(Principal::Group),
        3 => Some(Principal::GroupNamed(name)),
        4 => Some(Principal::Everyone),
        _ => None,
    }
}
