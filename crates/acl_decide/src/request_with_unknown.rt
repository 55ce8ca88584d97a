//! Whether a request is granted where a list names special identifiers that nobody knows.
ghost use Rattle.std.specs.Prelude.{◌≡◌, ◌≤◌, ◌&&◌, IfOk, All, length, map};
ghost use Rattle.acl_perm.specs.Bits.{has_bit};
ghost use Rattle.acl_nfs4.specs.Ace.{ace};
ghost use Rattle.acl_eval.specs.Situation.{situation};
ghost use Rattle.acl_decide.specs.Unknown.{GrantsUnder, IsRequestAnswer};
ghost use Rattle.acl_eval.specs.internal.Asked.{asked_situation};
ghost use Rattle.acl_decide.specs.internal.RequestBody.{AllowsFrom, ArePassed, HasPassed, IsNamed, MayBeGranted, Says, SaysAce, applies_but};
ghost use Rattle.acl_decide.specs.internal.OutNames.{IsFor, IsNameNumber, is_out};

use crate::out_names::OutNames;
use crate::rights_with_unknown::decided_with_unknown;
use acl_eval::internal::Matcher;
use acl_eval::{Object, Requester};
use acl_nfs4::{AccessPart, AceRef};
use acl_perm::internal::Bit;
use acl_perm::{Kind, Mask};
use std::alloc::{AllocError, Global};

/// Whether a list grants a request, whatever its unknown identifiers match.
#[derive(Clone, Copy, Debug, PartialEq, Eq)]
pub enum RequestAnswer {
    /// The request is granted in any case.
    Always,
    /// The request is not granted in any case.
    Never,
    /// Whether the request is granted depends on what the unknown identifiers match.
    Depends,
}

/// Returns whether the list grants the whole request, as `grants` does, for every assignment of matches to the special
/// identifiers that nobody knows, for none, or for some. This is more than `decided_with_unknown` says of each right:
/// two rights may each be granted and never both, since a name matches for both or for none. If `decided_with_unknown`
/// does not answer already, it numbers the unknown identifiers, in time n log n for n ACEs, and reads the list about once
/// for each right of the mask. Fails if memory runs out for the names.
pub fn request_answer(
    alloc: Global,
    part: &AccessPart<'_>,
    object: &Object<'_>,
    requester: &Requester<'_>,
    mask: Mask,
) -> Result<RequestAnswer, AllocError>
    ensures exact { IfOk result (IsRequestAnswer part.now.kept
        (situation object.now requester.now) mask.bits) }
{
    let decided = decided_with_unknown(alloc, part, object, requester, mask)?;
    if mask.difference(decided.allowed).bits() == 0 {
        return Ok(RequestAnswer::Always);
    }
    if decided.denied.union(decided.undecided).bits() != 0 {
        return Ok(RequestAnswer::Never);
    }
    let aces = part.aces();
    let matcher = Matcher::new(*object, *requester, aces.len());
    if may_be_granted(alloc, aces, &matcher, mask)? {
        Ok(RequestAnswer::Depends)
    } else {
        Ok(RequestAnswer::Never)
    }
}

// What an ACE that decides a right says of a request, or what all ACEs that decide its rights say.
#[derive(Clone, Copy)]
enum Verdict<'a> {
    Granted,
    Denied,
    Against(&'a [u8]),
}

// Returns whether some assignment grants the request. At first all names match. A name whose DENY decides a right of
// the request matches in no assignment that grants it, so it is taken out, until no name is. A name that is out stays
// out, so the ACE that decides a right only moves down the list. Each right keeps the place of this ACE.
fn may_be_granted(
    alloc: Global,
    aces: &[AceRef<'_>],
    matcher: &Matcher<'_>,
    mask: Mask,
) -> Result<bool, AllocError>
    requires { All (λ a. 1 ≤ length a.who.now) aces.now }
    ensures { IfOk result
        (MayBeGranted (map ace aces.now) (asked_situation matcher.now) mask.bits) }
{
    let mut out = OutNames::none(alloc, aces)?;
    let mut places = [0; Bit::COUNT];
    loop {
        match judge(aces, matcher, mask, &out, &mut places) {
            Verdict::Granted => return Ok(true),
            Verdict::Denied => return Ok(false),
            Verdict::Against(who) => out.add(who),
        }
    }
}

// Judges the request where all unknown identifiers match but those that are out. Moves the places of its rights down,
// up to the first right that is not allowed.
fn judge<'a>(
    aces: &[AceRef<'a>],
    matcher: &Matcher<'_>,
    mask: Mask,
    out: &OutNames<'a>,
    places: &mut [usize; Bit::COUNT],
) -> Verdict<'a>
    requires named { All (λ a. 1 ≤ length a.who.now) aces.now }
    requires out { IsFor aces.now out.now }
    requires passed { ArePassed aces.now (asked_situation matcher.now) mask.bits (is_out out.now)
        places.old }
    ensures passed { ArePassed aces.now (asked_situation matcher.now) mask.bits (is_out out.now)
        places.new }
    ensures says { Says aces.now (is_out out.now)
        (λ v. GrantsUnder v (map ace aces.now) (asked_situation matcher.now) mask.bits) result }
    ensures named { IsNamed aces.now result }
{
    for right in mask.rights() {
        let bit = Bit::from(right);
        let mut place = places[bit.bit];
        let verdict = descend(aces, matcher, bit, out, &mut place);
        places[bit.bit] = place;
        match verdict {
            Verdict::Granted => {}
            _ => return verdict,
        }
    }
    Verdict::Granted
}

// Moves the place down to the ACE that decides the right where all unknown identifiers match but those that are out.
// Returns what this ACE says.
fn descend<'a>(
    aces: &[AceRef<'a>],
    matcher: &Matcher<'_>,
    right: Bit,
    out: &OutNames<'a>,
    place: &mut usize,
) -> Verdict<'a>
    requires named { All (λ a. 1 ≤ length a.who.now) aces.now }
    requires out { IsFor aces.now out.now }
    ensures passed { HasPassed aces.now (asked_situation matcher.now) right.bit (is_out out.now)
        place.old place.new }
    ensures says { Says aces.now (is_out out.now)
        (AllowsFrom aces.now (asked_situation matcher.now) right.bit place.new) result }
    ensures named { IsNamed aces.now result }
{
    while let Some(item) = aces.get(*place) {
        if decides(item, *place, matcher, right, out) {
            return verdict_of(item);
        }
        *place += 1;
    }
    Verdict::Denied
}

// Returns what an ACE says that decides a right. If it is a DENY, only an unknown identifier may fail to match.
fn verdict_of<'a>(item: &AceRef<'a>) -> Verdict<'a>
    requires { 1 ≤ length item.now.who.now }
    ensures { SaysAce (ace item.now) result }
{
    match item.kind {
        Kind::Allow => Verdict::Granted,
        Kind::Deny if item.is_unknown() => Verdict::Against(item.who),
        Kind::Deny => Verdict::Denied,
    }
}

// Returns whether the ACE at a place decides the right where all unknown identifiers match but those that are out.
fn decides(
    item: &AceRef<'_>,
    place: usize,
    matcher: &Matcher<'_>,
    right: Bit,
    out: &OutNames<'_>,
) -> bool
    requires named { 1 ≤ length item.now.who.now }
    requires number { IsNameNumber out.now item.now place }
    ensures { result ≡ (has_bit item.now.mask.bits right.bit
        && applies_but (is_out out.now) (asked_situation matcher.now) (ace item.now)) }
{
    right.is_in(item.mask) && applies_but(item, place, matcher, out)
}

// Returns whether the ACE at a place applies where all unknown identifiers match but those that are out.
fn applies_but(item: &AceRef<'_>, place: usize, matcher: &Matcher<'_>, out: &OutNames<'_>) -> bool
    requires named { 1 ≤ length item.now.who.now }
    requires number { IsNameNumber out.now item.now place }
    ensures { result ≡ applies_but (is_out out.now) (asked_situation matcher.now) (ace item.now) }
{
    if item.is_unknown() {
        item.takes_part() && !out.has(place)
    } else {
        matcher.applies(item)
    }
}
