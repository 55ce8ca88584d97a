//! Lists whose users and groups are ids: they are read once, and asked by ids.
ghost use Rattle.std.specs.Prelude.{◌≡◌, ◌↔◌, List};
ghost use Rattle.acl_nfs4.specs.Ace.{Ace};
ghost use Rattle.acl_posix.specs.Names.{Table};
ghost use Rattle.acl_prepared.specs.PreparedIds.{IsPreparedIds, id_situation};
ghost use Rattle.aclck_c.specs.Ids.{AreDecidedByIds, AreGoodIdNumbers, JudgesIds, MakesIds, ReadsForIds, asked_by_ids, unknown_at};
ghost use Rattle.aclck_c.specs.Requests.{nothing_decided};
ghost use Rattle.aclck_c.specs.internal.IdFailures.{IsIdsFailure, of_ids};
ghost use Rattle.aclck_c.specs.Common.{GivesAnswer, IfErr, IfOk, IfSome, IsSome, WritesBytes, profile_from, profile_of};

use crate::failure::Failure;
use crate::nfs4::decide::RawDecided;
use crate::nfs4::request::RawQuestion;
use crate::options::profile_from;
use crate::out::answer;
use crate::posix::names::{RawName, table_of};
use crate::reason::Reason;
use crate::refusal::Refusal;
use crate::status::Status;
use acl_ids::IdsFault;
use acl_nfs4::AclView;
use acl_perm::{Mask, Profile};
use acl_prepared::{IdObject, IdRequester, PreparedIds, prepare_ids};
use std::alloc::Global;

/// `struct aclck_names`: the names that a list may use for ids.
#[repr(C)]
#[derive(Clone, Copy, Debug)]
pub struct RawNames<'a> {
    pub names: &'a [RawName<'a>],
}

/// `struct aclck_id_object`: the ids of the owner of an object, and of its owning group.
#[repr(C)]
#[derive(Clone, Copy, Debug)]
pub struct RawIdObject {
    pub owner: u32,
    pub group: u32,
}

/// `struct aclck_id_requester`: the id of a user, and the ids of the groups of that user, in rising order.
#[repr(C)]
#[derive(Clone, Copy, Debug)]
pub struct RawIdRequester<'a> {
    pub user: u32,
    pub groups: &'a [u32],
}

impl From<IdsFault> for Failure {
    ghost use Rattle.std.specs.Prelude.{◌≡◌};
    ghost use Rattle.aclck_c.specs.internal.IdFailures.{of_ids};

    ghost from_gives = { λ fault failure. failure ≡ of_ids fault };

    fn from(fault: IdsFault) -> Failure {
        match fault {
            IdsFault::UnknownName { place } => Failure::Refused(unknown_at(place)),
            IdsFault::Memory => Failure::Memory,
        }
    }
}

/// Returns the refusal of a list whose ACE with this number has a name without an id, or needs a name that no ACE can
/// have.
pub(crate) fn unknown_at(place: usize) -> Refusal
    ensures { result ≡ unknown_at place }
{
    Refusal::at(Reason::UnknownName, place as u64)
}

/// Writes the list that the bytes spell as `aclck_decide_ids` takes it. The id of a name is that of `names`, and
/// otherwise the number whose decimal digits the name is. Returns 0 if the bytes are at the front of `out`; 2 if the
/// bytes are refused, or a user or a group has no id, with the reason in `fault`; 3 if the names make no table, or an
/// option has no meaning; 4 if memory ran out; 5 if `out` is too short. At 0 and 5 `needed` is the number of bytes.
#[unsafe(no_mangle)]
pub extern "C" fn aclck_prepare_ids(
    alloc: Global,
    acl: &[u8],
    names: &RawNames<'_>,
    options: u32,
    out: &mut [u8],
    needed: &mut usize,
    fault: &mut Refusal,
) -> u32
    ensures bytes { WritesBytes (MakesIds (profile_from options) acl.now names.now.names.now)
        out.old out.new needed.old needed.new result }
    ensures input { ReadsForIds (profile_from options) acl.now names.now.names.now options
        fault.old fault.new result }
{
    let Some(profile) = profile_from(options) else {
        return Status::BadArgument.number();
    };
    answer(
        prepared(alloc, acl, names.names, profile),
        out,
        needed,
        fault,
    )
}

// Fails if the names make no table, the bytes are refused, a name of the list has no id, or memory runs out.
#[tactic(auto, using(crate::proofs::IdFailures::names_failure, crate::proofs::IdFailures::list_failure, crate::proofs::IdFailures::unknown_failure))]
fn prepared(
    alloc: Global,
    acl: &[u8],
    names: &[RawName<'_>],
    profile: Profile,
) -> Result<Vec<u8>, Failure>
    ensures ok { IfOk result (λ bytes.
        MakesIds (profile_of profile) acl.now names.now bytes.items) }
    ensures err { IfErr result (IsIdsFailure (profile_of profile) acl.now names.now) }
{
    let table = table_of(alloc, names)?;
    let view = AclView::parse_whole_with(acl, profile)?;
    Ok(prepare_ids(alloc, &view, &table)?)
}

/// Answers which of the rights that are asked a list allows the requester on the object, and which it denies (RFC 8881,
/// section 6.2.1), by ids. `prepared` are the bytes that `aclck_prepare_ids` wrote; for other bytes the call fails or
/// the answer means nothing. No ACE decides the rest, and nothing is decided if the call fails. Returns 0 if it is
/// answered; 3 if the groups do not rise, a number has no meaning, there is an option, or the bytes are not prepared.
/// It takes no memory.
#[unsafe(no_mangle)]
pub extern "C" fn aclck_decide_ids(
    prepared: &[u8],
    object: &RawIdObject,
    requester: &RawIdRequester<'_>,
    question: &RawQuestion,
    decided: &mut RawDecided,
) -> u32
    ensures answer { GivesAnswer (AreDecidedByIds prepared.now
        (asked_by_ids object.now requester.now) question.now.mask)
        nothing_decided decided.new result }
    ensures arguments { JudgesIds prepared.now requester.now question.now result }
{
    *decided = RawDecided {
        allowed: 0,
        denied: 0,
    };
    let Some(request) = asked(object, requester, question) else {
        return Status::BadArgument.number();
    };
    let Some(found) = decided_in(prepared, &request) else {
        return Status::BadArgument.number();
    };
    *decided = found;
    Status::Done.number()
}

// A request by ids: the object, the requester, and the rights that are requested.
#[derive(Clone, Copy)]
struct IdRequest<'a> {
    object: IdObject,
    requester: IdRequester<'a>,
    mask: Mask,
}

// Returns `None` if the groups do not rise, a bit of the mask is not a right, or there is an option.
fn asked<'a>(
    object: &RawIdObject,
    requester: &RawIdRequester<'a>,
    question: &RawQuestion,
) -> Option<IdRequest<'a>>
    ensures good { IsSome result ↔ AreGoodIdNumbers requester.now question.now }
    ensures situation { IfSome result (λ r. id_situation r.object r.requester
        ≡ asked_by_ids object.now requester.now) }
    ensures mask { IfSome result (λ r. r.mask.bits ≡ question.now.mask) }
{
    if question.options != 0 {
        return None;
    }
    Some(IdRequest {
        object: IdObject {
            owner: object.owner,
            group: object.group,
        },
        requester: IdRequester::new(requester.user, requester.groups)?,
        mask: Mask::new(question.mask)?,
    })
}

// Returns which rights of the request the list allows and denies, or `None` if the bytes are not prepared.
fn decided_in(prepared: &[u8], request: &IdRequest<'_>) -> Option<RawDecided>
    ensures some { (table : Table) (list : List Ace) → IsPreparedIds table list prepared.now
        → IsSome result }
    ensures decided { IfSome result (AreDecidedByIds prepared.now
        (id_situation request.now.object request.now.requester) request.now.mask.bits) }
{
    let list = PreparedIds::read(prepared)?;
    let found = list.decided(request.object, &request.requester, request.mask)?;
    Some(RawDecided {
        allowed: found.allowed.bits(),
        denied: found.denied.bits(),
    })
}
