//! Which rights a list allows, and which it denies.
ghost use Rattle.aclck_c.specs.Requests.{AreDecided, nothing_decided};
ghost use Rattle.aclck_c.specs.Common.{IfErr, IfOk, profile_of, situation, LooksAtList, GivesAnswer, profile_from, AreGood, asked, IsViewFailure};

use crate::failure::Failure;
use crate::nfs4::request::{
    NfsRequest, RawObject, RawQuestion, RawRequester, asked, with_sorted_groups,
};
use crate::out::answer_value;
use crate::refusal::Refusal;
use crate::status::Status;
use acl_eval::decided;
use acl_nfs4::AclView;
use std::alloc::Global;

/// `struct aclck_decided`: of the rights that are asked, those that an ALLOW decides and those that a DENY decides.
#[repr(C)]
#[derive(Clone, Copy, Debug)]
pub struct RawDecided {
    pub allowed: u32,
    pub denied: u32,
}

/// What is written if no ACE decides a right, or if the call fails.
pub(crate) const NOTHING_DECIDED: RawDecided = RawDecided {
    allowed: 0,
    denied: 0,
};

/// Answers which of the rights that are asked the list that the bytes spell allows the requester on the object, and
/// which it denies (RFC 8881, section 6.2.1). No ACE decides the rest, and nothing is decided if the call fails.
/// Returns 0 if it is answered; 2 if the bytes are refused, with the reason in `fault`; 3 if a name is empty, or a
/// number or an option has no meaning. It takes memory only to sort many groups in no order, and does not fail if there
/// is none.
#[unsafe(no_mangle)]
pub extern "C" fn aclck_decide(
    alloc: Global,
    acl: &[u8],
    object: &RawObject<'_>,
    requester: &RawRequester<'_>,
    question: &RawQuestion,
    decided: &mut RawDecided,
    fault: &mut Refusal,
) -> u32
    ensures answer { GivesAnswer (AreDecided (profile_from question.now.options) acl.now
        (asked object.now requester.now) question.now.mask) nothing_decided decided.new result }
    ensures input { LooksAtList (profile_from question.now.options) acl.now
        (AreGood object.now requester.now question.now) fault.old fault.new result }
{
    *decided = NOTHING_DECIDED;
    let Some(request) = asked(object, requester, question) else {
        return Status::BadArgument.number();
    };
    answer_value(decided_in(alloc, acl, &request), decided, fault)
}

// Returns which rights of the request the list allows and denies. Fails if the bytes are refused.
fn decided_in(alloc: Global, acl: &[u8], request: &NfsRequest<'_>) -> Result<RawDecided, Failure>
    ensures ok { IfOk result (AreDecided (profile_of request.now.profile) acl.now
        (situation request.now.object request.now.requester) request.now.mask.bits) }
    ensures err { IfErr result (IsViewFailure (profile_of request.now.profile) acl.now) }
{
    let view = AclView::parse_whole_with(acl, request.profile)?;
    let sorted = with_sorted_groups(alloc, request.requester, view.len());
    let found = decided(
        view.aces(),
        &request.object,
        &sorted.requester(),
        request.mask,
    );
    Ok(RawDecided {
        allowed: found.allowed.bits(),
        denied: found.denied.bits(),
    })
}
