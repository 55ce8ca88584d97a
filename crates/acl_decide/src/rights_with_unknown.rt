//! What a list answers where it names special identifiers that nobody knows.
ghost use Rattle.std.specs.Prelude.{◌≡◌, ◌≤◌, ◌↔◌, ◌∷◌, [], ◌&&◌, ◌||◌, ℕ, IfOk, OnOk, IsTrue, All, List, None, Option, Some, length, map, not};
ghost use Rattle.acl_perm.specs.Bits.{IsDifference, has_bit};
ghost use Rattle.acl_perm.specs.declared.kind.Kind.{Kind as KindValue};
ghost use Rattle.acl_perm.specs.declared.kind.Kind.TheVariants.{Allow, Deny};
ghost use Rattle.acl_nfs4.specs.Ace.{Ace, ace};
ghost use Rattle.acl_eval.specs.Situation.{situation};
ghost use Rattle.acl_decide.specs.Unknown.{AlwaysAnswers, MayAnswer, MayNotGrant, NeverGrants};
ghost use Rattle.acl_eval.specs.internal.Asked.{asked_situation};
ghost use Rattle.acl_decide.specs.internal.UnknownBody.{AreHad, HaveNoted, can_answer, is_answer, is_possible, may_answer, noting};

use acl_eval::internal::Matcher;
use acl_eval::{Object, Requester};
use acl_nfs4::{AccessPart, AceRef};
use acl_perm::{Kind, Mask};
use std::alloc::{AllocError, Global};
use std::collections::BTreeMap;

/// The rights of a mask, sorted by what a list answers for them, whatever its unknown identifiers match. Each right of
/// the mask is in one of the four sets.
#[derive(Clone, Copy, Debug, PartialEq, Eq)]
pub struct DecidedWithUnknown {
    /// An ALLOW decides the right in any case.
    pub allowed: Mask,
    /// The right is not granted in any case, and a DENY decides it or may do so.
    pub denied: Mask,
    /// No ACE decides the right in any case.
    pub undecided: Mask,
    /// Whether the right is granted depends on the unknown identifiers.
    pub unknown: Mask,
}

/// Decides the rights of `mask` as `granted` does, for a list with special identifiers that nobody knows, such as
/// `INTERACTIVE@`: the answer for each right holds for every assignment of matches to these names, and `unknown` has
/// the rights that some assignment grants and another does not. That two rights are unknown does not say that they may
/// be granted together, which `request_answer` says. It reads the list once, and keeps the rights of each unknown
/// identifier by the name. So the time is proportional to the number of ACEs, times the logarithm of the number of
/// unknown identifiers. Fails if memory runs out for these names.
pub fn decided_with_unknown(
    alloc: Global,
    part: &AccessPart<'_>,
    object: &Object<'_>,
    requester: &Requester<'_>,
    mask: Mask,
) -> Result<DecidedWithUnknown, AllocError>
    ensures allowed { IfOk result (λ decided. (bit : ℕ)
        → IsTrue (has_bit decided.allowed.bits bit)
        ↔ (IsTrue (has_bit mask.bits bit)
        × AlwaysAnswers part.now.kept (situation object.now requester.now) bit (Some Allow))) }
    ensures denied { IfOk result (λ decided. (bit : ℕ)
        → IsTrue (has_bit decided.denied.bits bit)
        ↔ (IsTrue (has_bit mask.bits bit)
        × NeverGrants part.now.kept (situation object.now requester.now) bit
        × MayAnswer part.now.kept (situation object.now requester.now) bit (Some Deny))) }
    ensures undecided { IfOk result (λ decided. (bit : ℕ)
        → IsTrue (has_bit decided.undecided.bits bit)
        ↔ (IsTrue (has_bit mask.bits bit)
        × AlwaysAnswers part.now.kept (situation object.now requester.now) bit None)) }
    ensures unknown { IfOk result (λ decided. (bit : ℕ)
        → IsTrue (has_bit decided.unknown.bits bit)
        ↔ (IsTrue (has_bit mask.bits bit)
        × MayAnswer part.now.kept (situation object.now requester.now) bit (Some Allow)
        × MayNotGrant part.now.kept (situation object.now requester.now) bit)) }
    // Each right of the mask is in one of the four sets.
    ensures whole { IfOk result (λ decided. (bit : ℕ) → has_bit mask.bits bit
        ≡ (has_bit decided.allowed.bits bit || (has_bit decided.denied.bits bit
        || (has_bit decided.undecided.bits bit || has_bit decided.unknown.bits bit)))) }
{
    let aces = part.aces();
    let matcher = Matcher::new(*object, *requester, aces.len());
    let possible = possible_answers(alloc, aces, &matcher, mask)?;
    Ok(possible.sorted())
}

fn possible_answers(
    alloc: Global,
    aces: &[AceRef<'_>],
    matcher: &Matcher<'_>,
    mask: Mask,
) -> Result<Possible, AllocError>
    requires { All (λ a. 1 ≤ length a.who.now) aces.now }
    ensures { IfOk result (λ possible. (bit : ℕ) (answer : Option KindValue)
        → may_answer possible [] [] (asked_situation matcher.now) bit answer
        ≡ (has_bit mask.bits bit
        && can_answer [] (map ace aces.now) (asked_situation matcher.now) bit answer)) }
{
    let mut possible = Possible::new(mask);
    let mut names = BTreeMap::new(alloc);
    for item in aces {
        let had = note(&mut names, item)?;
        possible = possible.after(had, item, matcher);
    }
    Ok(possible)
}

// Adds the rights of the ACE to those of its name, and returns the rights that earlier ACEs of the name have. An ACE
// that does not take part, or whose name is known, adds nothing.
fn note<'a>(names: &mut BTreeMap<&'a [u8], Mask>, item: &AceRef<'a>) -> Result<Mask, AllocError>
    requires { 1 ≤ length item.now.who.now }
    ensures had { IfOk result (λ rights. (earlier : List Ace) → HaveNoted names.old earlier
        → AreHad rights.bits (ace item.now) earlier) }
    ensures noted { OnOk result ((earlier : List Ace) → HaveNoted names.old earlier
        → HaveNoted names.new (noting earlier (ace item.now))) }
{
    if !item.is_unknown() || !item.takes_part() {
        return Ok(Mask::NONE);
    }
    let earlier = names.insert(item.who, item.mask)?.unwrap_or(Mask::NONE);
    if !item.mask.contains(earlier) {
        names.insert(item.who, earlier.union(item.mask))?;
    }
    Ok(earlier)
}

/// The answers that are possible for the rights of a mask: rights that an ALLOW of those so far may decide, rights that
/// a DENY may decide, and rights that perhaps none of them decides.
#[derive(Clone, Copy)]
struct Possible {
    allow: Mask,
    deny: Mask,
    left: Mask,
}

impl Possible {
    fn new(mask: Mask) -> Possible
        ensures allow { result.allow.bits ≡ 0 }
        ensures deny { result.deny.bits ≡ 0 }
        ensures left { result.left.bits ≡ mask.bits }
    {
        Possible {
            allow: Mask::NONE,
            deny: Mask::NONE,
            left: mask,
        }
    }

    // The answers that are possible after one more ACE, given the rights that earlier ACEs of its name have.
    fn after(self, had: Mask, item: &AceRef<'_>, matcher: &Matcher<'_>) -> Possible
        requires { 1 ≤ length item.now.who.now }
        ensures { (earlier list : List Ace) (bit : ℕ) (answer : Option KindValue)
            → AreHad had.bits (ace item.now) earlier
            → may_answer result (noting earlier (ace item.now)) list
            (asked_situation matcher.now) bit answer
            ≡ may_answer self earlier (ace item.now ∷ list)
            (asked_situation matcher.now) bit answer }
    {
        let common = self.left.intersection(item.mask);
        if common.bits() == 0 || !item.takes_part() {
            return self;
        }
        if item.is_unknown() {
            return self.with(item.kind, common.difference(had));
        }
        if matcher.applies(item) {
            return self.with(item.kind, common).without(common);
        }
        self
    }

    // Adds that an ACE of this kind may decide these rights.
    fn with(self, kind: Kind, rights: Mask) -> Possible
        ensures possible { (bit : ℕ) (answer : Option KindValue) → is_possible result bit answer
            ≡ (is_possible self bit answer
            || (has_bit rights.bits bit && is_answer (Some kind) answer)) }
        ensures left { result.left ≡ self.left }
    {
        match kind {
            Kind::Allow => Possible {
                allow: self.allow.union(rights),
                ..self
            },
            Kind::Deny => Possible {
                deny: self.deny.union(rights),
                ..self
            },
        }
    }

    // Removes rights that are decided in any case.
    fn without(self, rights: Mask) -> Possible
        ensures possible { (bit : ℕ) (answer : Option KindValue) → is_possible result bit answer
            ≡ is_possible self bit answer }
        ensures left { IsDifference self.left.bits rights.bits result.left.bits }
    {
        Possible {
            left: self.left.difference(rights),
            ..self
        }
    }

    // Sorts the rights by what is possible for each.
    fn sorted(self) -> DecidedWithUnknown
        ensures allowed { (bit : ℕ) → has_bit result.allowed.bits bit
            ≡ (has_bit self.allow.bits bit
            && not (has_bit self.deny.bits bit || has_bit self.left.bits bit)) }
        ensures denied { (bit : ℕ) → has_bit result.denied.bits bit
            ≡ (has_bit self.deny.bits bit && not (has_bit self.allow.bits bit)) }
        ensures undecided { (bit : ℕ) → has_bit result.undecided.bits bit
            ≡ (has_bit self.left.bits bit
            && not (has_bit self.allow.bits bit || has_bit self.deny.bits bit)) }
        ensures unknown { (bit : ℕ) → has_bit result.unknown.bits bit
            ≡ (has_bit self.allow.bits bit
            && (has_bit self.deny.bits bit || has_bit self.left.bits bit)) }
    {
        let others = self.deny.union(self.left);
        let decided = self.allow.union(self.deny);
        DecidedWithUnknown {
            allowed: self.allow.difference(others),
            denied: self.deny.difference(self.allow),
            undecided: self.left.difference(decided),
            unknown: self.allow.intersection(others),
        }
    }
}
