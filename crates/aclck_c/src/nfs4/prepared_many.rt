//! What the list of prepared bytes decides for many requesters.
ghost use Rattle.std.specs.Prelude.{◌≡◌, List, true};
ghost use Rattle.acl_nfs4.specs.Ace.{Ace};
ghost use Rattle.acl_prepared.specs.Prepared.{IsPrepared};
ghost use Rattle.acl_eval.specs.Situation.{owner_of, owning_group_of};
ghost use Rattle.aclck_c.specs.Prepared.{AnswersPrepared, AreDecidedIn, AreEachDecided, AreGoodForPreparedMany, HaveDecided, asked_prepared, asked_prepared_by, nothing_decided_for};
ghost use Rattle.aclck_c.specs.Requests.{IsGoodRequester};
ghost use Rattle.aclck_c.specs.Common.{All, IfSome, IsSome, length};

use crate::nfs4::check_many::are_good;
use crate::nfs4::decide::{NOTHING_DECIDED, RawDecided};
use crate::nfs4::prepared::{PreparedCall, call_of, decided_by, requester_of};
use crate::nfs4::request::{RawObject, RawQuestion, RawRequester};
use crate::status::Status;
use std::alloc::Global;

/// Answers as `aclck_decide_prepared` does, for each of the requesters: the answers are in `decided`, one for each
/// requester, and nothing is decided for any of them if the call fails. Returns 0 if it is answered; 3 if a name is
/// empty, a number or an option has no meaning, or `decided` has another length than `requesters`. Bytes that
/// `aclck_prepare` did not write get 3, or answers that mean nothing. It takes memory only to sort many groups in no
/// order, and does not fail if there is none.
#[unsafe(no_mangle)]
pub extern "C" fn aclck_decide_prepared_many(
    alloc: Global,
    prepared: &[u8],
    object: &RawObject<'_>,
    requesters: &[RawRequester<'_>],
    question: &RawQuestion,
    decided: &mut [RawDecided],
) -> u32
    ensures { AnswersPrepared prepared.now
        (AreGoodForPreparedMany object.now requesters.now question.now (length decided.old))
        (HaveDecided (asked_prepared object.now question.now) requesters.now question.now.mask)
        (nothing_decided_for decided.old) decided.new result }
{
    decided.fill(NOTHING_DECIDED);
    let Some(call) = call_of(object, question) else {
        return Status::BadArgument.number();
    };
    if decided.len() != requesters.len() || !are_good(requesters) {
        return Status::BadArgument.number();
    }
    if !decide_each(alloc, prepared, &call, requesters, decided) {
        decided.fill(NOTHING_DECIDED);
        return Status::BadArgument.number();
    }
    Status::Done.number()
}

// Writes for each requester what is decided. Returns false if the bytes are not prepared bytes.
fn decide_each(
    alloc: Global,
    prepared: &[u8],
    call: &PreparedCall<'_>,
    requesters: &[RawRequester<'_>],
    decided: &mut [RawDecided],
) -> bool
    requires good { All IsGoodRequester requesters.now }
    requires count { length decided.old ≡ length requesters.now }
    ensures count { length decided.new ≡ length decided.old }
    ensures some { (list : List Ace) → IsPrepared list prepared.now → result ≡ true }
    ensures rights { (list : List Ace) → IsPrepared list prepared.now
        → AreEachDecided
        (asked_prepared_by (owner_of call.now.object) (owning_group_of call.now.object)
        call.now.is_in_order) requesters.now call.now.mask.bits list decided.new }
{
    for (place, who) in requesters.iter().enumerate() {
        let Some(found) = decided_for(alloc, prepared, call, who) else {
            return false;
        };
        decided[place] = found;
    }
    true
}

fn decided_for(
    alloc: Global,
    prepared: &[u8],
    call: &PreparedCall<'_>,
    who: &RawRequester<'_>,
) -> Option<RawDecided>
    requires { IsGoodRequester who.now }
    ensures some { (list : List Ace) → IsPrepared list prepared.now → IsSome result }
    ensures rights { (list : List Ace) → IsPrepared list prepared.now
        → IfSome result (AreDecidedIn (asked_prepared_by (owner_of call.now.object)
        (owning_group_of call.now.object) call.now.is_in_order who.now) call.now.mask.bits list) }
{
    let requester = requester_of(call, who)?;
    decided_by(alloc, prepared, call, requester)
}
