//! What a list may answer where it names special identifiers that nobody knows.
ghost use Rattle.std.specs.Prelude.{◌≡◌};
ghost use Rattle.acl_nfs4.specs.AccessPart.{IsPartOf};
ghost use Rattle.acl_eval.specs.Situation.{situation};
ghost use Rattle.aclck_c.specs.Status as status;
ghost use Rattle.aclck_c.specs.Unknown.{ArePossible, ArePossibleIn, IsRefusedPart, nothing_possible, request_number};
ghost use Rattle.aclck_c.specs.internal.Failures.{IsPartFailure, of_part_fault};
ghost use Rattle.aclck_c.specs.Common.{⊤, IfErr, IfOk, profile_of, JudgesInput, GivesAnswer, profile_from, AreGood, asked};

use crate::failure::Failure;
use crate::nfs4::request::{
    NfsRequest, RawObject, RawQuestion, RawRequester, asked, with_sorted_groups,
};
use crate::out::answer_value;
use crate::refusal::Refusal;
use crate::status::Status;
use acl_decide::{RequestAnswer, decided_with_unknown, request_answer};
use acl_nfs4::{AccessPart, Fault, Reason as ListReason};
use acl_perm::Profile;
use std::alloc::{AllocError, Global};

/// `struct aclck_possible`: rights by what a list answers for them, whatever its unknown identifiers match; the number
/// of the answer to the whole request; and how many AUDIT and ALARM ACEs are left out.
#[repr(C)]
#[derive(Clone, Copy, Debug)]
pub struct RawPossible {
    pub allowed: u32,
    pub denied: u32,
    pub unknown: u32,
    pub request: u32,
    pub left_out: u32,
}

const NOTHING_POSSIBLE: RawPossible = RawPossible {
    allowed: 0,
    denied: 0,
    unknown: 0,
    request: 0,
    left_out: 0,
};

/// Answers which of the rights that are asked the list that the bytes spell allows the requester on the object, which
/// it denies, and which depend on special identifiers that nobody knows, and whether it grants the whole request (RFC
/// 8881, sections 6.2.1 and 6.2.1.5). AUDIT and ALARM ACEs are left out and counted. Returns 0 if it is answered; 2 if
/// the bytes are refused, with the reason in `fault`; 3 if a name is empty, or a number or an option has no meaning; 4
/// if memory ran out. If the call fails, all of `possible` is 0.
#[unsafe(no_mangle)]
pub extern "C" fn aclck_decide_unknown(
    alloc: Global,
    acl: &[u8],
    object: &RawObject<'_>,
    requester: &RawRequester<'_>,
    question: &RawQuestion,
    possible: &mut RawPossible,
    fault: &mut Refusal,
) -> u32
    ensures answer { GivesAnswer (ArePossible (profile_from question.now.options) acl.now
        (asked object.now requester.now) question.now.mask) nothing_possible possible.new result }
    ensures input { JudgesInput (IsRefusedPart (profile_from question.now.options) acl.now) ⊤
        (AreGood object.now requester.now question.now)
        status.only_done fault.old fault.new result }
{
    *possible = NOTHING_POSSIBLE;
    let Some(request) = asked(object, requester, question) else {
        return Status::BadArgument.number();
    };
    answer_value(possible_in(alloc, acl, &request), possible, fault)
}

// Fails if the bytes are refused or memory runs out.
fn possible_in(alloc: Global, acl: &[u8], request: &NfsRequest<'_>) -> Result<RawPossible, Failure>
    ensures ok { IfOk result (ArePossible (profile_of request.now.profile) acl.now
        (situation request.now.object request.now.requester) request.now.mask.bits) }
    ensures err { IfErr result (IsPartFailure (profile_of request.now.profile) acl.now) }
{
    let part = part_of(alloc, acl, request.profile)?;
    Ok(possible_of(alloc, &part, request)?)
}

/// Reads the part of a list that access reads. Fails if the bytes are refused, or memory runs out.
pub(crate) fn part_of<'a>(
    alloc: Global,
    acl: &'a [u8],
    profile: Profile,
) -> Result<AccessPart<'a>, Failure>
    ensures ok { IfOk result (IsPartOf (profile_of profile) acl.now) }
    ensures err { IfErr result (IsPartFailure (profile_of profile) acl.now) }
{
    match AccessPart::parse_whole_with(alloc, acl, profile) {
        Ok(part) => Ok(part),
        Err(fault) => Err(failure_of(fault)),
    }
}

// The reader of a part says that memory ran out by a reason of its own.
fn failure_of(fault: Fault) -> Failure
    ensures { result ≡ of_part_fault fault.reason fault.offset }
{
    match fault.reason {
        ListReason::Memory => Failure::Memory,
        _ => Failure::Refused(Refusal::in_list(fault)),
    }
}

fn possible_of(
    alloc: Global,
    part: &AccessPart<'_>,
    request: &NfsRequest<'_>,
) -> Result<RawPossible, AllocError>
    ensures possible { IfOk result (ArePossibleIn part.now.kept
        (situation request.now.object request.now.requester) request.now.mask.bits) }
    ensures left_out { IfOk result (λ found. found.left_out ≡ part.now.left_out) }
{
    let sorted = with_sorted_groups(alloc, request.requester, part.aces().len());
    let requester = sorted.requester();
    let decided = decided_with_unknown(alloc, part, &request.object, &requester, request.mask)?;
    let answer = request_answer(alloc, part, &request.object, &requester, request.mask)?;
    Ok(RawPossible {
        allowed: decided.allowed.bits(),
        denied: decided.denied.bits(),
        unknown: decided.unknown.bits(),
        request: request_number(answer),
        left_out: left_out(part)?,
    })
}

// A list has at most 65,536 ACEs, so the number always fits.
fn left_out(part: &AccessPart<'_>) -> Result<u32, AllocError>
    ensures { IfOk result (λ number. number ≡ part.now.left_out) }
{
    match u32::try_from(part.left_out()) {
        Ok(number) => Ok(number),
        Err(_) => Err(AllocError),
    }
}

fn request_number(answer: RequestAnswer) -> u32
    ensures { result ≡ request_number answer }
{
    match answer {
        RequestAnswer::Never => 0,
        RequestAnswer::Depends => 1,
        RequestAnswer::Always => 2,
    }
}
