//! A list that is read once and then asked often, by its prepared bytes.
ghost use Rattle.std.specs.Prelude.{◌≡◌, ◌↔◌, List};
ghost use Rattle.acl_nfs4.specs.Ace.{Ace};
ghost use Rattle.acl_prepared.specs.Prepared.{IsPrepared};
ghost use Rattle.acl_eval.specs.Situation.{groups_of, owner_of, owning_group_of, user_of};
ghost use Rattle.aclck_c.specs.Options.{says_order};
ghost use Rattle.aclck_c.specs.Prepared.{AnswersPrepared, AreDecidedIn, AreGoodForPrepared, IsPreparedCall, Prepares, asked_prepared, groups_asked};
ghost use Rattle.aclck_c.specs.Requests.{IsGoodRequester, nothing_decided};
ghost use Rattle.aclck_c.specs.Common.{IfErr, IfOk, IfSome, IsSome, map, profile_of, situation, WritesOfList, profile_from, IsListFailure, IsProfileOption};

use crate::failure::Failure;
use crate::nfs4::decide::{NOTHING_DECIDED, RawDecided};
use crate::nfs4::request::{RawObject, RawQuestion, RawRequester, with_sorted_groups};
use crate::options::{GROUPS_IN_ORDER, has_option, is_order_option, profile_from};
use crate::out::answer;
use crate::refusal::Refusal;
use crate::status::Status;
use acl_eval::{Object, Requester};
use acl_nfs4::AclView;
use acl_perm::{Mask, Profile};
use acl_prepared::{Prepared, prepare};
use std::alloc::Global;

// The number of bytes of a prepared ACE without a name.
const SHORTEST_ACE: usize = 8;

/// Writes the prepared bytes of the list that the bytes spell (this library's own, over RFC 8881, section 6.2.1). They
/// hold no address, so they may be kept in a file, mapped, and read by many threads. Returns 0 if they are at the front
/// of `out`; 2 if the bytes are refused, with the reason in `fault`; 3 if an option has no meaning; 4 if memory ran
/// out; 5 if `out` is too short. At 0 and 5 `needed` is the number of the prepared bytes.
#[unsafe(no_mangle)]
pub extern "C" fn aclck_prepare(
    alloc: Global,
    acl: &[u8],
    options: u32,
    out: &mut [u8],
    needed: &mut usize,
    fault: &mut Refusal,
) -> u32
    ensures { WritesOfList (profile_from options) acl.now (IsProfileOption options)
        (Prepares (profile_from options) acl.now)
        out.old out.new needed.old needed.new fault.old fault.new result }
{
    let Some(profile) = profile_from(options) else {
        return Status::BadArgument.number();
    };
    answer(prepared_bytes(alloc, acl, profile), out, needed, fault)
}

fn prepared_bytes(alloc: Global, acl: &[u8], profile: Profile) -> Result<Vec<u8>, Failure>
    ensures ok { IfOk result (λ bytes. Prepares (profile_of profile) acl.now bytes.items) }
    ensures err { IfErr result (IsListFailure (profile_of profile) acl.now 0) }
{
    let view = AclView::parse_whole_with(acl, profile)?;
    Ok(prepare(alloc, &view)?)
}

/// Answers as `aclck_decide` does for the list whose prepared bytes these are: which of the rights that are asked it
/// allows the requester on the object, and which it denies. It stops when all of them are decided. If the caller says
/// that the groups are in order, each is looked up by binary search, and a group that the search misses does not count.
/// Returns 0 if it is answered; 3 if a name is empty, or a number or an option has no meaning. Bytes that
/// `aclck_prepare` did not write get 3, or an answer that means nothing. Nothing is decided if the call fails. It takes
/// memory only to sort many groups in no order, and does not fail if there is none.
#[unsafe(no_mangle)]
pub extern "C" fn aclck_decide_prepared(
    alloc: Global,
    prepared: &[u8],
    object: &RawObject<'_>,
    requester: &RawRequester<'_>,
    question: &RawQuestion,
    decided: &mut RawDecided,
) -> u32
    ensures { AnswersPrepared prepared.now
        (AreGoodForPrepared object.now requester.now question.now)
        (AreDecidedIn (asked_prepared object.now question.now requester.now) question.now.mask)
        nothing_decided decided.new result }
{
    *decided = NOTHING_DECIDED;
    let Some(call) = call_of(object, question) else {
        return Status::BadArgument.number();
    };
    let Some(requester) = requester_of(&call, requester) else {
        return Status::BadArgument.number();
    };
    let Some(found) = decided_by(alloc, prepared, &call, requester) else {
        return Status::BadArgument.number();
    };
    *decided = found;
    Status::Done.number()
}

/// What is the same for all requesters: the object, the rights that are requested, and whether the caller says that the
/// groups are in order.
#[derive(Clone, Copy)]
pub(crate) struct PreparedCall<'a> {
    pub object: Object<'a>,
    pub mask: Mask,
    pub is_in_order: bool,
}

/// Returns what is asked of prepared bytes, or `None` if a name is empty, a bit of the mask is not a right, or an
/// option has no meaning.
pub(crate) fn call_of<'a>(
    object: &RawObject<'a>,
    question: &RawQuestion,
) -> Option<PreparedCall<'a>>
    ensures good { IsSome result ↔ IsPreparedCall object.now question.now }
    ensures owner { IfSome result (λ call. owner_of call.object ≡ object.now.owner.now) }
    ensures group { IfSome result (λ call. owning_group_of call.object ≡ object.now.group.now) }
    ensures mask { IfSome result (λ call. call.mask.bits ≡ question.now.mask) }
    ensures order { IfSome result (λ call. call.is_in_order ≡ says_order question.now.options) }
{
    if !is_order_option(question.options) {
        return None;
    }
    Some(PreparedCall {
        object: Object::new(object.owner, object.group)?,
        mask: Mask::new(question.mask)?,
        is_in_order: has_option(GROUPS_IN_ORDER, question.options),
    })
}

/// Makes the requester of a call. Returns `None` if a name is empty.
pub(crate) fn requester_of<'a>(
    call: &PreparedCall<'_>,
    who: &RawRequester<'a>,
) -> Option<Requester<'a>>
    ensures good { IsSome result ↔ IsGoodRequester who.now }
    ensures user { IfSome result (λ requester. user_of requester ≡ who.now.user.now) }
    ensures groups { IfSome result (λ requester. groups_of requester
        ≡ groups_asked call.now.is_in_order (map (λ g. g.now) who.now.groups.now)) }
{
    if call.is_in_order {
        Requester::in_order(who.user, who.groups)
    } else {
        Requester::new(who.user, who.groups)
    }
}

/// Returns which of the rights the list whose prepared bytes these are allows the requester, and which it denies. For
/// other bytes it returns `None`, or an answer that means nothing.
pub(crate) fn decided_by(
    alloc: Global,
    prepared: &[u8],
    call: &PreparedCall<'_>,
    requester: Requester<'_>,
) -> Option<RawDecided>
    ensures some { (list : List Ace) → IsPrepared list prepared.now → IsSome result }
    ensures rights { (list : List Ace) → IsPrepared list prepared.now
        → IfSome result
        (AreDecidedIn (situation call.now.object requester.entry) call.now.mask.bits list) }
{
    let list = Prepared::read(prepared)?;
    let sorted = with_sorted_groups(alloc, requester, prepared.len() / SHORTEST_ACE);
    let found = list.decided(&call.object, &sorted.requester(), call.mask)?;
    Some(RawDecided {
        allowed: found.allowed.bits(),
        denied: found.denied.bits(),
    })
}
