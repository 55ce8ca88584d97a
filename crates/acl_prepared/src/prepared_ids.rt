//! A list that is read once and then asked often, by ids: its prepared bytes.
ghost use Rattle.std.specs.Prelude.{◌≡◌, ◌∷◌, ℕ, IfErr, IfOk, IfSome, IsSome, List};
ghost use Rattle.std.specs.List.{flat_map};
ghost use Rattle.acl_perm.specs.declared.kind.Kind.TheVariants.{Allow, Deny};
ghost use Rattle.acl_nfs4.specs.Ace.{Ace};
ghost use Rattle.acl_posix.specs.Names.{Table};
ghost use Rattle.acl_eval.specs.Deciding.{AreDecidedBy};
ghost use Rattle.acl_ids.specs.Ids.{HaveIds, IsIdsFault, with_ids};
ghost use Rattle.acl_prepared.specs.PreparedIds.{AreIdsReadFrom, IsPreparedIds, id_ace, id_situation};
ghost use Rattle.acl_eval.specs.internal.EachRightBody.{granted_in, left_in};
ghost use Rattle.acl_prepared.specs.internal.IdsBody.{AreIdParts, IsIdPart, IsIdReadAs};
ghost use Rattle.acl_prepared.specs.internal.PreparedBody.{DecidesAs};

use crate::id_ace::{PreparedIdAce, first_id_ace, push_id_ace};
use crate::id_request::{IdObject, IdRequester};
use acl_eval::DecidedRights;
use acl_eval::internal::GrantedSoFar;
use acl_ids::{IdsFault, first_unknown};
use acl_nfs4::AclView;
use acl_perm::Mask;
use acl_posix::Names;
use std::alloc::{AllocError, Global};

// The bytes that each prepared list of ids begins with. The last of them is the number of the form.
const START: &[u8; 8] = b"aclpids1";

/// Returns the bytes of a list that is prepared for ids, which `PreparedIds::read` takes. They have no address and no
/// number of this process in them, so they may be stored, mapped, and read by several threads. An ACE takes eight
/// bytes; ACEs that take no part are left out. The id of a name is that of the table, and otherwise the number whose
/// decimal digits the name is. Returns `UnknownName` for the first ACE with another name of a user or of a group, also
/// if the ACE takes no part, and `Memory` only if memory runs out.
///
/// ```rust
/// let list = parse_text(alloc, b"DENY GROUP WRITE_DATA staff\nALLOW - READ_DATA|WRITE_DATA 1000")?;
/// let mut names = Names::new(alloc);
/// names.add_group(b"staff", Id { value: 50 })?;
/// let bytes = prepare_ids(alloc, &list.view(), &names)?;
/// let prepared = PreparedIds::read(&bytes).ok_or("not prepared")?;
/// let object = IdObject { owner: 0, group: 0 };
/// let bob = IdRequester::new(1000, &[50]).ok_or("the groups do not rise")?;
/// let rights = prepared.decided(object, &bob, Mask::ALL).ok_or("not prepared")?;
/// assert!(rt; rights.allowed == Mask::READ_DATA && rights.denied == Mask::WRITE_DATA);
/// ```
pub fn prepare_ids(alloc: Global, list: &AclView<'_>, names: &Names) -> Result<Vec<u8>, IdsFault>
    ensures bytes { IfOk result (λ bytes. IsPreparedIds names.now list.now bytes.items) }
    ensures fault { IfErr result (IsIdsFault names.now list.now) }
{
    if let Some(place) = first_unknown(list, names) {
        return Err(IdsFault::UnknownName { place });
    }
    Ok(bytes_of(alloc, list, names)?)
}

// Returns the prepared bytes of a list in which each name has an id. Fails only if memory runs out.
fn bytes_of(alloc: Global, list: &AclView<'_>, names: &Names) -> Result<Vec<u8>, AllocError>
    requires { HaveIds names.now list.now }
    ensures { IfOk result (λ bytes. IsPreparedIds names.now list.now bytes.items) }
{
    let mut bytes = Vec::from_slice(alloc, START)?;
    for ace in list.aces() {
        if ace.takes_part() {
            push_id_ace(&mut bytes, names, &ace)?;
        }
    }
    Ok(bytes)
}

/// A prepared list of ids, which borrows its bytes.
#[derive(Clone, Copy, Debug)]
pub struct PreparedIds<'a> {
    aces: &'a [u8],
}

impl<'a> PreparedIds<'a> {
    /// Takes the bytes that `prepare_ids` returned, or returns `None` if the bytes do not begin as such bytes do. The
    /// other bytes are judged when they are needed.
    pub fn read(bytes: &'a [u8]) -> Option<Self>
        ensures { (table : Table) (list : List Ace) → IsPreparedIds table list bytes.now
            → IsSome result × IfSome result (AreIdsReadFrom table list) }
    {
        let aces = bytes.strip_prefix(START)?;
        Some(PreparedIds { aces })
    }

    /// Returns what `decided` returns for the list in which the digits of its id are in place of each name, and for the
    /// digits of these ids. It stops when every right of the mask is decided, and takes no memory. For bytes that
    /// `prepare_ids` did not return, the answer is `None` or means nothing.
    pub fn decided(
        &self,
        object: IdObject,
        requester: &IdRequester<'_>,
        mask: Mask,
    ) -> Option<DecidedRights>
        ensures answer { (table : Table) (list : List Ace) → AreIdsReadFrom table list self.now
            → IsSome result }
        ensures allowed { (table : Table) (list : List Ace) → AreIdsReadFrom table list self.now
            → IfSome result (λ rights.
            AreDecidedBy Allow (with_ids table list) (id_situation object requester.now)
            mask.bits rights.allowed.bits) }
        ensures denied { (table : Table) (list : List Ace) → AreIdsReadFrom table list self.now
            → IfSome result (λ rights.
            AreDecidedBy Deny (with_ids table list) (id_situation object requester.now)
            mask.bits rights.denied.bits) }
    {
        let so_far = decided_to(self.aces, object, requester, mask)?;
        Some(so_far.decided(mask))
    }
}

// Decides the rights of the mask, ACE by ACE, until none is left.
fn decided_to(
    aces: &[u8],
    object: IdObject,
    requester: &IdRequester<'_>,
    mask: Mask,
) -> Option<GrantedSoFar>
    ensures { (list : List Ace) → AreIdParts list → aces.now ≡ flat_map id_ace list
        → IsSome result
        × IfSome result (DecidesAs (id_situation object requester.now) mask.bits list) }
{
    let mut so_far = GrantedSoFar::new(mask);
    let mut rest = aces;
    while !rest.is_empty() {
        if so_far.left.bits() == 0 {
            return Some(so_far);
        }
        let first = first_id_ace(rest)?;
        so_far = after_id(so_far, &first, object, requester);
        rest = first.rest;
    }
    Some(so_far)
}

// The state after one more ACE, which decides only what no earlier ACE has decided.
#[inline(always)]
fn after_id(
    so_far: GrantedSoFar,
    item: &PreparedIdAce<'_>,
    object: IdObject,
    requester: &IdRequester<'_>,
) -> GrantedSoFar
    ensures granted { (a : Ace) → IsIdPart a → IsIdReadAs a item.now → (list : List Ace) (bit : ℕ)
        → granted_in (id_situation object requester.now) result list bit
        ≡ granted_in (id_situation object requester.now) so_far (a ∷ list) bit }
    ensures left { (a : Ace) → IsIdPart a → IsIdReadAs a item.now → (list : List Ace) (bit : ℕ)
        → left_in (id_situation object requester.now) result list bit
        ≡ left_in (id_situation object requester.now) so_far (a ∷ list) bit }
{
    let decided = so_far.left.intersection(item.mask);
    if decided.bits() == 0 || !requester.is_match(object, item.whom()) {
        return so_far;
    }
    so_far.decide(item.kind, item.mask)
}
