//! The rights of a mask that a list grants.
ghost use Rattle.std.specs.Prelude.{◌≡◌, ◌≤◌, ◌↔◌, ◌∷◌, ◌&&◌, if◌then◌else◌, not, ℕ, Bool, List, length};
ghost use Rattle.acl_perm.specs.Bits.{IsSubset, has_bit};
ghost use Rattle.acl_nfs4.specs.Ace.{Ace, ace};
ghost use Rattle.acl_eval.specs.Situation.{situation};
ghost use Rattle.acl_eval.specs.Grant.{Grant, grants_bit, is_allow};
ghost use Rattle.acl_eval.specs.internal.Asked.{asked_situation};
ghost use Rattle.acl_perm.specs.declared.kind.Kind.TheVariants.{Allow, Deny};
ghost use Rattle.acl_eval.specs.Deciding.{AreDecidedBy};
ghost use Rattle.acl_eval.specs.internal.EachRightBody.{decided_by, granted_in, is_undecided, left_in};

use crate::matching::Matcher;
use crate::situation::{Object, Requester};
use acl_nfs4::{AceRef, Aces};
use acl_perm::{Kind, Mask};

/// Returns the rights of `mask` that the list grants the requester on the object (RFC 8881, section 6.2.1). For each
/// right, the first ACE without INHERIT_ONLY that has the right and matches the requester decides; a right that no
/// ACE decides is denied. `grants` answers `true` if and only if all rights of its request are among those that are
/// granted. The function reads the list once, stops when every right of the mask is decided, and takes no memory.
///
/// ```rust
/// let list = parse_text(alloc, b"ALLOW - READ_DATA bob\nDENY - WRITE_DATA bob")?;
/// let object = Object::new(b"alice", b"staff").ok_or("a name is empty")?;
/// let bob = Requester::new(b"bob", &[]).ok_or("a name is empty")?;
/// let rights = granted(list.aces(), &object, &bob, Mask::ALL);
/// assert!(rt; rights == Mask::READ_DATA);
/// ```
pub fn granted(aces: Aces<'_>, object: &Object<'_>, requester: &Requester<'_>, mask: Mask) -> Mask
    ensures rights { (bit : ℕ) → has_bit result.bits bit ≡ (has_bit mask.bits bit
        && grants_bit aces.entry (situation object.now requester.now) bit) }
    ensures requests { (request : ℕ) → IsSubset request mask.bits
        → Grant aces.entry (situation object.now requester.now) request
        ↔ IsSubset request result.bits }
{
    let matcher = Matcher::new(*object, *requester, aces.len());
    decided_to(aces, &matcher, mask).granted
}

/// The rights of a request that a list decides: those that it allows and those that it denies.
#[derive(Clone, Copy, Debug, PartialEq, Eq)]
pub struct DecidedRights {
    /// The rights that an ALLOW decides.
    pub allowed: Mask,
    /// The rights that a DENY decides.
    pub denied: Mask,
}

/// Returns the rights of `mask` that the list allows the requester on the object, and those that it denies (RFC 8881,
/// section 6.2.1). For each right, the first ACE without INHERIT_ONLY that has the right and matches the requester
/// decides. A right of `mask` that is in neither set is undecided: no ACE decides it. The function reads the list once,
/// stops when every right of the mask is decided, and takes no memory.
///
/// ```rust
/// let list = parse_text(alloc, b"ALLOW - READ_DATA bob\nDENY - WRITE_DATA bob")?;
/// let object = Object::new(b"alice", b"staff").ok_or("a name is empty")?;
/// let bob = Requester::new(b"bob", &[]).ok_or("a name is empty")?;
/// let rights = decided(list.aces(), &object, &bob, Mask::ALL);
/// assert!(rt; rights.allowed == Mask::READ_DATA && rights.denied == Mask::WRITE_DATA);
/// ```
pub fn decided(
    aces: Aces<'_>,
    object: &Object<'_>,
    requester: &Requester<'_>,
    mask: Mask,
) -> DecidedRights
    ensures allowed { AreDecidedBy Allow aces.entry (situation object.now requester.now) mask.bits
        result.allowed.bits }
    ensures denied { AreDecidedBy Deny aces.entry (situation object.now requester.now) mask.bits
        result.denied.bits }
{
    let matcher = Matcher::new(*object, *requester, aces.len());
    decided_to(aces, &matcher, mask).decided(mask)
}

// Decides the rights of the mask, ACE by ACE, until none is left.
fn decided_to(aces: Aces<'_>, matcher: &Matcher<'_>, mask: Mask) -> GrantedSoFar
    ensures granted { (bit : ℕ) → has_bit result.granted.bits bit
        ≡ (has_bit mask.bits bit && grants_bit aces.entry (asked_situation matcher.now) bit) }
    ensures left { (bit : ℕ) → has_bit result.left.bits bit
        ≡ (has_bit mask.bits bit && is_undecided (asked_situation matcher.now) bit aces.entry) }
{
    let mut so_far = GrantedSoFar::new(mask);
    for ace in aces {
        if so_far.left.bits() == 0 {
            return so_far;
        }
        so_far = so_far.after(&ace, matcher);
    }
    so_far
}

/// The rights that the ACEs so far grant, and those that none of them has decided.
#[derive(Clone, Copy)]
pub struct GrantedSoFar {
    pub granted: Mask,
    pub left: Mask,
}

impl GrantedSoFar {
    /// Makes the state before the first ACE, for a request for these rights.
    pub fn new(mask: Mask) -> GrantedSoFar
        ensures granted { result.granted.bits ≡ 0 }
        ensures left { result.left.bits ≡ mask.bits }
    {
        GrantedSoFar {
            granted: Mask::NONE,
            left: mask,
        }
    }

    /// Returns the rights of the mask that are decided: those that are granted, and those that are neither granted nor
    /// left.
    pub fn decided(self, mask: Mask) -> DecidedRights
        ensures allowed { result.allowed ≡ self.granted }
        ensures denied { (bit : ℕ) → has_bit result.denied.bits bit ≡ (has_bit mask.bits bit
            && (not (has_bit self.granted.bits bit) && not (has_bit self.left.bits bit))) }
    {
        DecidedRights {
            allowed: self.granted,
            denied: mask.difference(self.granted).difference(self.left),
        }
    }

    // The state after one more ACE, which decides only what no earlier ACE has decided. The mask is judged before the
    // who, which takes more time.
    #[inline(always)]
    fn after(self, item: &AceRef<'_>, matcher: &Matcher<'_>) -> GrantedSoFar
        requires { 1 ≤ length item.now.who.now }
        ensures granted { (list : List Ace) (bit : ℕ)
            → granted_in (asked_situation matcher.now) result list bit
            ≡ granted_in (asked_situation matcher.now) self (ace item.now ∷ list) bit }
        ensures left { (list : List Ace) (bit : ℕ)
            → left_in (asked_situation matcher.now) result list bit
            ≡ left_in (asked_situation matcher.now) self (ace item.now ∷ list) bit }
    {
        let decided = self.left.intersection(item.mask);
        if decided.bits() == 0 || !matcher.applies(item) {
            return self;
        }
        self.decide(item.kind, item.mask)
    }

    /// Returns the state after an ACE of this kind and mask, which matches the requester.
    #[inline(always)]
    #[tactic(auto)]
    pub fn decide(self, kind: Kind, mask: Mask) -> GrantedSoFar
        ensures granted { (is_granted : Bool) (bit : ℕ) → decided_by result is_granted bit
            ≡ decided_by self (if has_bit mask.bits bit then is_allow kind else is_granted) bit }
        ensures left { (bit : ℕ) → has_bit result.left.bits bit
            ≡ (has_bit self.left.bits bit && not (has_bit mask.bits bit)) }
    {
        let granted = match kind {
            Kind::Allow => self.granted.union(self.left.intersection(mask)),
            Kind::Deny => self.granted,
        };
        GrantedSoFar {
            granted,
            left: self.left.difference(mask),
        }
    }
}
