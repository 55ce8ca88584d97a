//! Which ACE decides a right.
ghost use Rattle.aclck_c.specs.Requests.{IsDecision, IsSomeRight, IsRight, no_decision};
ghost use Rattle.aclck_c.specs.internal.Deciding.{Finds, raw_decision};
ghost use Rattle.std.specs.Prelude.{◌≡◌};
ghost use Rattle.aclck_c.specs.Common.{IfErr, IfOk, IfSome, IsNone, profile_of, situation, LooksAtList, profile_from, GivesAnswer, AreGood, asked, IsViewFailure};

use crate::failure::Failure;
use crate::nfs4::request::{
    NfsRequest, RawObject, RawQuestion, RawRequester, asked, with_sorted_groups,
};
use crate::out::answer_value;
use crate::refusal::Refusal;
use crate::status::Status;
use acl_decide::{Decision, deciding_ace};
use acl_nfs4::AclView;
use acl_perm::{Mask, Right};
use std::alloc::Global;

/// `struct aclck_decision`: the place of an ACE, from 0, and its kind, 0 ALLOW or 1 DENY. If there is no ACE, the place
/// is 0 and the kind is 2.
#[repr(C)]
#[derive(Clone, Copy, Debug)]
pub struct RawDecision {
    pub place: u64,
    pub kind: u32,
}

const NO_DECISION: RawDecision = RawDecision { place: 0, kind: 2 };

/// Answers which ACE of the list that the bytes spell decides the one right that is asked for this requester and object
/// (RFC 8881, section 6.2.1). It is in `decision`, which has the kind 2 if no ACE decides, which denies the right, or
/// if the call fails. Returns 0 if it is answered; 2 if the bytes are refused, with the reason in `fault`; 3 if a name
/// is empty, not exactly one right is asked, or an option has no meaning. It takes memory only to sort many groups in
/// no order, and does not fail if there is none.
#[unsafe(no_mangle)]
pub extern "C" fn aclck_deciding(
    alloc: Global,
    acl: &[u8],
    object: &RawObject<'_>,
    requester: &RawRequester<'_>,
    question: &RawQuestion,
    decision: &mut RawDecision,
    fault: &mut Refusal,
) -> u32
    ensures answer { GivesAnswer (IsDecision (profile_from question.now.options) acl.now
        (asked object.now requester.now) question.now.mask) no_decision decision.new result }
    ensures input { LooksAtList (profile_from question.now.options) acl.now
        (AreGood object.now requester.now question.now × IsSomeRight question.now.mask)
        fault.old fault.new result }
{
    *decision = NO_DECISION;
    let Some(request) = asked(object, requester, question) else {
        return Status::BadArgument.number();
    };
    let Some(bit) = right_of(request.mask) else {
        return Status::BadArgument.number();
    };
    let found = decide(alloc, acl, &request, bit).map(raw_decision);
    answer_value(found, decision, fault)
}

fn raw_decision(found: Option<Decision>) -> RawDecision
    ensures { result ≡ raw_decision found }
{
    match found {
        Some(found) => RawDecision {
            place: found.place as u64,
            kind: found.kind.number(),
        },
        None => NO_DECISION,
    }
}

/// Returns the right of the mask, or `None` if the mask is not exactly one right.
pub(crate) fn right_of(mask: Mask) -> Option<Right>
    ensures right { IfSome result (λ right. IsRight mask.bits right.bit) }
    ensures none { IsNone result → IsSomeRight mask.bits → ⊥ }
{
    for bit in 0..Right::END {
        if mask.bits() == 1 << bit {
            return Some(Right { bit });
        }
    }
    None
}

// Fails if the bytes are refused. `None` means that no ACE decides the right.
fn decide(
    alloc: Global,
    acl: &[u8],
    request: &NfsRequest<'_>,
    right: Right,
) -> Result<Option<Decision>, Failure>
    ensures ok { IfOk result (Finds (profile_of request.now.profile) acl.now
        (situation request.now.object request.now.requester) right.bit) }
    ensures err { IfErr result (IsViewFailure (profile_of request.now.profile) acl.now) }
{
    let view = AclView::parse_whole_with(acl, request.profile)?;
    let sorted = with_sorted_groups(alloc, request.requester, view.len());
    Ok(deciding_ace(view.aces(), &request.object, &sorted.requester(), right))
}
