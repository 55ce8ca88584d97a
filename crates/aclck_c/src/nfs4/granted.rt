//! Which rights of a mask a list grants.
ghost use Rattle.aclck_c.specs.Requests.{HasGranted};
ghost use Rattle.aclck_c.specs.Common.{IfErr, IfOk, profile_of, situation, LooksAtList, profile_from, GivesAnswer, AreGood, asked, IsViewFailure};

use crate::failure::Failure;
use crate::nfs4::request::{
    NfsRequest, RawObject, RawQuestion, RawRequester, asked, with_sorted_groups,
};
use crate::out::answer_value;
use crate::refusal::Refusal;
use crate::status::Status;
use acl_eval::granted;
use acl_nfs4::AclView;
use std::alloc::Global;

/// Answers which of the rights that are asked the list that the bytes spell grants the requester on the object (RFC
/// 8881, section 6.2.1): they are in `rights`, which is 0 if the call fails. Returns 0 if it is answered; 2 if the
/// bytes are refused, with the reason in `fault`; 3 if a name is empty, or a number or an option has no meaning. It
/// takes memory only to sort many groups in no order, and does not fail if there is none.
#[unsafe(no_mangle)]
pub extern "C" fn aclck_granted(
    alloc: Global,
    acl: &[u8],
    object: &RawObject<'_>,
    requester: &RawRequester<'_>,
    question: &RawQuestion,
    rights: &mut u32,
    fault: &mut Refusal,
) -> u32
    ensures answer { GivesAnswer (HasGranted (profile_from question.now.options) acl.now
        (asked object.now requester.now) question.now.mask) 0 rights.new result }
    ensures input { LooksAtList (profile_from question.now.options) acl.now
        (AreGood object.now requester.now question.now) fault.old fault.new result }
{
    *rights = 0;
    let Some(request) = asked(object, requester, question) else {
        return Status::BadArgument.number();
    };
    answer_value(granted_in(alloc, acl, &request), rights, fault)
}

// Returns those rights of the request that the list grants. Fails if the bytes are refused.
fn granted_in(alloc: Global, acl: &[u8], request: &NfsRequest<'_>) -> Result<u32, Failure>
    ensures ok { IfOk result (HasGranted (profile_of request.now.profile) acl.now
        (situation request.now.object request.now.requester) request.now.mask.bits) }
    ensures err { IfErr result (IsViewFailure (profile_of request.now.profile) acl.now) }
{
    let view = AclView::parse_whole_with(acl, request.profile)?;
    let sorted = with_sorted_groups(alloc, request.requester, view.len());
    Ok(granted(
        view.aces(),
        &request.object,
        &sorted.requester(),
        request.mask,
    )
    .bits())
}
