//! Whether a list grants a request.
ghost use Rattle.acl_eval.specs.Programs.{Decides};
ghost use Rattle.aclck_c.specs.Common.{IfErr, IfOk, profile_of, situation, LooksAtList, GivesAnswer, IsTruthOf, profile_from, AreGood, asked, IsViewFailure};

use crate::failure::Failure;
use crate::nfs4::request::{
    NfsRequest, RawObject, RawQuestion, RawRequester, asked, with_sorted_groups,
};
use crate::out::answer_truth;
use crate::refusal::Refusal;
use crate::status::Status;
use acl_eval::grants;
use acl_nfs4::AclView;
use std::alloc::Global;

/// Answers whether the list that the bytes spell grants the requester all the rights that are asked on the object (RFC
/// 8881, section 6.2.1): `granted` is 1 if it does, and 0 if it does not or the call fails. Returns 0 if it is
/// answered; 2 if the bytes are refused, with the reason in `fault`; 3 if a name is empty, or a number or an option has
/// no meaning. It takes memory only to sort many groups in no order, and does not fail if there is none.
#[unsafe(no_mangle)]
pub extern "C" fn aclck_check(
    alloc: Global,
    acl: &[u8],
    object: &RawObject<'_>,
    requester: &RawRequester<'_>,
    question: &RawQuestion,
    granted: &mut u32,
    fault: &mut Refusal,
) -> u32
    ensures answer { GivesAnswer (IsTruthOf (Decides (profile_from question.now.options) acl.now
        (asked object.now requester.now) question.now.mask)) 0 granted.new result }
    ensures input { LooksAtList (profile_from question.now.options) acl.now
        (AreGood object.now requester.now question.now) fault.old fault.new result }
{
    *granted = 0;
    let Some(request) = asked(object, requester, question) else {
        return Status::BadArgument.number();
    };
    answer_truth(decide(alloc, acl, &request), granted, fault)
}

// Returns whether the list grants the request. Fails if the bytes are refused.
fn decide(alloc: Global, acl: &[u8], request: &NfsRequest<'_>) -> Result<bool, Failure>
    ensures ok { IfOk result (Decides (profile_of request.now.profile) acl.now
        (situation request.now.object request.now.requester) request.now.mask.bits) }
    ensures err { IfErr result (IsViewFailure (profile_of request.now.profile) acl.now) }
{
    let view = AclView::parse_whole_with(acl, request.profile)?;
    let sorted = with_sorted_groups(alloc, request.requester, view.len());
    Ok(grants(
        view.aces(),
        &request.object,
        &sorted.requester(),
        request.mask,
    ))
}
