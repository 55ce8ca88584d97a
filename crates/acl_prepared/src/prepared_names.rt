//! A list that is read once and then asked often: its prepared bytes.
ghost use Rattle.std.specs.Prelude.{◌≡◌, ◌∷◌, ℕ, IfOk, IfSome, IsSome, List};
ghost use Rattle.std.specs.List.{flat_map};
ghost use Rattle.acl_perm.specs.declared.kind.Kind.TheVariants.{Allow, Deny};
ghost use Rattle.acl_nfs4.specs.Ace.{Ace};
ghost use Rattle.acl_eval.specs.Deciding.{AreDecidedBy};
ghost use Rattle.acl_prepared.specs.Prepared.{IsPrepared, IsReadFrom, prepared_ace};
ghost use Rattle.acl_eval.specs.Situation.{situation};
ghost use Rattle.acl_eval.specs.internal.EachRightBody.{granted_in, left_in};
ghost use Rattle.acl_prepared.specs.internal.PreparedBody.{AreParts, DecidesAs, IsPart, IsReadAs};
ghost use Rattle.acl_prepared.specs.internal.AskedByHashes.{situation_by_hashes};

use crate::hash_matching::{HashMatcher, hashes_of};
use crate::prepared_ace::{PreparedAce, first_prepared, push_prepared};
use acl_eval::internal::GrantedSoFar;
use acl_eval::{DecidedRights, Object, Requester};
use acl_nfs4::AclView;
use acl_perm::Mask;
use std::alloc::{AllocError, Global};

// The bytes that each prepared list begins with. The last of them is the number of the form.
const START: &[u8; 8] = b"aclprep1";

// The number of bytes of an ACE without a name.
const SHORTEST: usize = 8;

/// Returns the prepared bytes of a list, which `Prepared::read` takes. They have no address and no number of this
/// process in them, so they may be stored, mapped, and read by several threads. An ACE takes eight bytes and its name;
/// ACEs that take no part are left out. Returns `AllocError` only if memory runs out.
///
/// ```rust
/// let list = parse_text(alloc, b"ALLOW - READ_DATA bob\nDENY - WRITE_DATA bob")?;
/// let bytes = prepare(alloc, &list.view())?;
/// let prepared = Prepared::read(&bytes).ok_or("not prepared")?;
/// let object = Object::new(b"alice", b"staff").ok_or("a name is empty")?;
/// let bob = Requester::new(b"bob", &[]).ok_or("a name is empty")?;
/// let rights = prepared.decided(&object, &bob, Mask::ALL).ok_or("not prepared")?;
/// assert!(rt; rights.allowed == Mask::READ_DATA && rights.denied == Mask::WRITE_DATA);
/// ```
pub fn prepare(alloc: Global, list: &AclView<'_>) -> Result<Vec<u8>, AllocError>
    ensures { IfOk result (λ bytes. IsPrepared list.now bytes.items) }
{
    let mut bytes = Vec::from_slice(alloc, START)?;
    for ace in list.aces() {
        if ace.takes_part() {
            push_prepared(&mut bytes, &ace)?;
        }
    }
    Ok(bytes)
}

/// A prepared list, which borrows its bytes.
#[derive(Clone, Copy, Debug)]
pub struct Prepared<'a> {
    aces: &'a [u8],
}

impl<'a> Prepared<'a> {
    /// Takes the bytes that `prepare` returned, or returns `None` if the bytes do not begin as prepared bytes do. The
    /// other bytes are judged when they are needed.
    pub fn read(bytes: &'a [u8]) -> Option<Self>
        ensures { (list : List Ace) → IsPrepared list bytes.now
            → IsSome result × IfSome result (IsReadFrom list) }
    {
        let aces = bytes.strip_prefix(START)?;
        Some(Prepared { aces })
    }

    /// Returns what `decided` returns for the list whose prepared bytes these are. It stops when every right of the
    /// mask is decided, and takes no memory. For bytes that `prepare` did not return, the answer is `None` or means
    /// nothing.
    pub fn decided(
        &self,
        object: &Object<'_>,
        requester: &Requester<'_>,
        mask: Mask,
    ) -> Option<DecidedRights>
        ensures answer { (list : List Ace) → IsReadFrom list self.now → IsSome result }
        ensures allowed { (list : List Ace) → IsReadFrom list self.now
            → IfSome result (λ rights.
            AreDecidedBy Allow list (situation object.now requester.now) mask.bits
            rights.allowed.bits) }
        ensures denied { (list : List Ace) → IsReadFrom list self.now
            → IfSome result (λ rights.
            AreDecidedBy Deny list (situation object.now requester.now) mask.bits
            rights.denied.bits) }
    {
        let requester = requester.for_look_ups(self.aces.len() / SHORTEST);
        let group_hashes = hashes_of(requester.groups());
        let matcher = HashMatcher::new(*object, requester, &group_hashes);
        let so_far = decided_to(self.aces, &matcher, mask)?;
        Some(so_far.decided(mask))
    }
}

// Decides the rights of the mask, ACE by ACE, until none is left.
fn decided_to(aces: &[u8], matcher: &HashMatcher<'_>, mask: Mask) -> Option<GrantedSoFar>
    ensures { (list : List Ace) → AreParts list → aces.now ≡ flat_map prepared_ace list
        → IsSome result
        × IfSome result (DecidesAs (situation_by_hashes matcher.now) mask.bits list) }
{
    let mut so_far = GrantedSoFar::new(mask);
    let mut rest = aces;
    while !rest.is_empty() {
        if so_far.left.bits() == 0 {
            return Some(so_far);
        }
        let first = first_prepared(rest)?;
        so_far = after_prepared(so_far, &first, matcher);
        rest = first.rest;
    }
    Some(so_far)
}

// The state after one more ACE, which decides only what no earlier ACE has decided.
#[inline(always)]
fn after_prepared(
    so_far: GrantedSoFar,
    item: &PreparedAce<'_>,
    matcher: &HashMatcher<'_>,
) -> GrantedSoFar
    ensures granted { (a : Ace) → IsPart a → IsReadAs a item.now → (list : List Ace) (bit : ℕ)
        → granted_in (situation_by_hashes matcher.now) result list bit
        ≡ granted_in (situation_by_hashes matcher.now) so_far (a ∷ list) bit }
    ensures left { (a : Ace) → IsPart a → IsReadAs a item.now → (list : List Ace) (bit : ℕ)
        → left_in (situation_by_hashes matcher.now) result list bit
        ≡ left_in (situation_by_hashes matcher.now) so_far (a ∷ list) bit }
{
    let decided = so_far.left.intersection(item.mask);
    if decided.bits() == 0 || !matcher.is_match(item.whom, item.hash) {
        return so_far;
    }
    so_far.decide(item.kind, item.mask)
}
