//! An ACE in the bytes of a prepared list of ids: a number of eight bytes.
ghost use Rattle.std.specs.Prelude.{◌≡◌, ◌++◌, ◌<◌, IfSome, IsSome, List, ℕ, OnOk, length, option_map};
ghost use Rattle.acl_nfs4.specs.Ace.{Ace, ace};
ghost use Rattle.acl_nfs4.specs.Who.{principal_of};
ghost use Rattle.acl_ids.specs.Ids.{HasId, with_id};
ghost use Rattle.acl_prepared.specs.PreparedIds.{id_ace, id_ace_number};
ghost use Rattle.acl_prepared.specs.internal.IdsBody.{IsIdPart, IsIdReadAs, id_or_zero, id_principal, principal_read};

use crate::prepared_ace::{kind_of, sort_of};
use acl_ids::principal_id;
use acl_nfs4::AceRef;
use acl_perm::{Kind, Mask};
use acl_posix::{Id, Names};
use std::alloc::AllocError;

// What the sort and the id are multiplied by in the number of an ACE.
const SORT: u64 = 1 << 28;

const ID: u64 = 1 << 32;

/// Whom an ACE of a prepared list of ids names: the owner, a user by id, the owning group, a group by id, or everyone.
#[derive(Clone, Copy)]
pub(crate) enum IdPrincipal {
    Owner,
    User(u32),
    Group,
    GroupNamed(u32),
    Everyone,
}

/// An ACE that was read from a prepared list of ids, and the bytes after it.
#[derive(Clone, Copy)]
pub(crate) struct PreparedIdAce<'a> {
    pub mask: Mask,
    pub kind: Kind,
    pub rest: &'a [u8],
    rank: u32,
    id: u32,
}

impl PreparedIdAce<'_> {
    /// Returns whom the ACE names, which is asked only if the ACE has a right that is not decided yet.
    #[inline(always)]
    pub(crate) fn whom(&self) -> IdPrincipal
        ensures { id_principal result ≡ principal_read self.now }
    {
        match self.rank {
            0 => IdPrincipal::Owner,
            1 => IdPrincipal::User(self.id),
            2 => IdPrincipal::Group,
            3 => IdPrincipal::GroupNamed(self.id),
            _ => IdPrincipal::Everyone,
        }
    }
}

/// Adds the bytes of an ACE at the end, with the id of its name. If memory runs out, it may have added some of them.
pub(crate) fn push_id_ace(
    bytes: &mut Vec<u8>,
    names: &Names,
    item: &AceRef<'_>,
) -> Result<(), AllocError>
    requires { HasId names.now (principal_of (ace item.now)) }
    ensures { OnOk result (bytes.new.items
        ≡ bytes.old.items ++ id_ace (with_id names.now (ace item.now))) }
{
    let number = number_of_ace(names, item);
    bytes.extend_from_slice(&number.to_le_bytes())
}

// Returns the number of an ACE, with the id of its name.
fn number_of_ace(names: &Names, item: &AceRef<'_>) -> u64
    requires { HasId names.now (principal_of (ace item.now)) }
    ensures { result ≡ id_ace_number (principal_of (with_id names.now (ace item.now))) item.now.kind
        item.now.mask.bits }
{
    let whom = item.principal();
    let sort = sort_of(whom, item.kind);
    let id = id_or_zero(principal_id(names, whom));
    item.mask.bits() as u64 + SORT * sort + ID * id as u64
}

fn id_or_zero(id: Option<Id>) -> u32
    ensures { result ≡ id_or_zero (option_map (λ i. i.value) id) }
{
    match id {
        Some(id) => id.value,
        None => 0,
    }
}

/// Returns the ACE that the bytes begin with, or `None` if they begin with none.
#[inline(always)]
pub(crate) fn first_id_ace(bytes: &[u8]) -> Option<PreparedIdAce<'_>>
    ensures shorter { IfSome result (λ first. length first.rest.now < length bytes.now) }
    ensures first { (a : Ace) (more : List ℕ) → IsIdPart a → bytes.now ≡ id_ace a ++ more
        → IsSome result × IfSome result (λ first. IsIdReadAs a first × (first.rest.now ≡ more)) }
{
    let (number, rest) = bytes.split_first_chunk::<8>()?;
    let number = u64::from_le_bytes(*number);
    let mask = Mask::new((number % SORT) as u32)?;
    let sort = number / SORT % 16;
    Some(PreparedIdAce {
        mask,
        kind: kind_of(sort),
        rest,
        rank: (sort / 2) as u32,
        id: (number / ID) as u32,
    })
}
