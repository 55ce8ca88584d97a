//! The ACE that decides one right, for callers that want to know why a request was granted or denied.
ghost use Rattle.std.specs.Prelude.{◌≡◌, option_map};
ghost use Rattle.acl_eval.specs.Deciding.{decides, deciding_kind, deciding_place};
ghost use Rattle.acl_eval.specs.Situation.{situation};
ghost use Rattle.acl_eval.specs.internal.Asked.{asked_situation};
ghost use Rattle.acl_decide.specs.internal.DecidingBody.{decision_from};

use acl_eval::internal::Matcher;
use acl_eval::{Object, Requester};
use acl_nfs4::Aces;
use acl_perm::{Kind, Right};

/// The ACE that decides a right.
#[derive(Clone, Copy, Debug, PartialEq, Eq)]
pub struct Decision {
    /// The place of the ACE in the list, from 0.
    pub place: usize,
    /// Whether the ACE denies or allows.
    pub kind: Kind,
}

/// Returns the ACE that decides the right for this requester and object, by RFC 8881, section 6.2.1: the first ACE
/// without INHERIT_ONLY that has the right and matches the requester, or `None` if no ACE does, which denies the right.
/// It reads the list once, stops at that ACE, and takes no memory.
///
/// ```rust
/// let list = parse_text(alloc, b"ALLOW - READ_DATA bob\nDENY - WRITE_DATA bob")?;
/// let object = Object::new(b"alice", b"staff").ok_or("a name is empty")?;
/// let bob = Requester::new(b"bob", &[]).ok_or("a name is empty")?;
/// let write = Right::new(1).ok_or("no such right")?;
/// let decision = deciding_ace(list.aces(), &object, &bob, write).ok_or("no ACE decides")?;
/// assert_eq!(rt; decision.place, 1);
/// ```
#[tactic(auto, using(crate::proofs::DecidingSearches::decisions))]
pub fn deciding_ace(
    aces: Aces<'_>,
    object: &Object<'_>,
    requester: &Requester<'_>,
    right: Right,
) -> Option<Decision>
    ensures place { option_map (λ decision. decision.place) result
        ≡ deciding_place aces.entry (situation object.now requester.now) right.bit }
    ensures kind { option_map (λ decision. decision.kind) result
        ≡ deciding_kind aces.entry (situation object.now requester.now) right.bit }
{
    let matcher = Matcher::new(*object, *requester, aces.len());
    first_deciding(aces, &matcher, right)
}

fn first_deciding(aces: Aces<'_>, matcher: &Matcher<'_>, right: Right) -> Option<Decision>
    ensures { result
        ≡ decision_from 0 (decides (asked_situation matcher.now) right.bit) aces.entry }
{
    for (place, ace) in aces.enumerate() {
        if ace.mask.has(right) && matcher.applies(&ace) {
            return Some(Decision {
                place,
                kind: ace.kind,
            });
        }
    }
    None
}
