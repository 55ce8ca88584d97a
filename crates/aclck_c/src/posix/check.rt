//! Whether the access part of a text grants a request.
ghost use Rattle.acl_posix.specs.Check.{ids};
ghost use Rattle.acl_posix.specs.Id.{IsId};
ghost use Rattle.acl_posix.specs.Programs.{Checks};
ghost use Rattle.acl_eval.specs.BridgeLaws.{object_for};
ghost use Rattle.aclck_c.specs.CheckPosix.{AreGoodIds, AreNumbers, object_asked, requester_asking, requester_with_ids};
ghost use Rattle.aclck_c.specs.Status as status;
ghost use Rattle.std.specs.Prelude.{◌≡◌, ◌↔◌};
ghost use Rattle.aclck_c.specs.Common.{All, IfErr, IfOk, IfSome, IsSome, IsTrue, ReadsFile, GivesAnswer, IsTruthOf, IsRefusedPosix, SpellsFile, IsFileFailure};

use crate::failure::Failure;
use crate::out::answer_truth;
use crate::posix::file::{RawPosixText, file_of};
use crate::refusal::Refusal;
use crate::status::Status;
use acl_perm::Perm;
use acl_posix::Id;
use std::alloc::{AllocError, Global};

/// `struct aclck_posix_question`: the owner and the group of an object, a user and the groups of that user, and the
/// permissions that the user wants.
#[repr(C)]
#[derive(Clone, Copy, Debug)]
pub struct RawPosixQuestion<'a> {
    pub owner: u32,
    pub group: u32,
    pub user: u32,
    pub want: u32,
    pub groups: &'a [u32],
}

/// Answers whether the access ACL of the text grants what is asked (acl(5), "ACCESS CHECK ALGORITHM"): `granted` is 1
/// if it does, and 0 if it does not or the call fails. Returns 0 if it is answered; 2 if the text is refused, with the
/// reason in `fault`; 3 if the names make no table, or a number is not an id or not a set of permissions; 4 if memory
/// ran out.
#[unsafe(no_mangle)]
pub extern "C" fn aclck_posix_check(
    alloc: Global,
    text: &RawPosixText<'_>,
    question: &RawPosixQuestion<'_>,
    granted: &mut u32,
    fault: &mut Refusal,
) -> u32
    ensures answer { GivesAnswer (IsTruthOf (Checks (SpellsFile text.now)
        (object_asked question.now) (requester_asking question.now) question.now.want))
        0 granted.new result }
    ensures input { ReadsFile text.now (IsRefusedPosix text.now)
        (AreGoodIds question.now) status.only_done fault.old fault.new result }
{
    *granted = 0;
    let Some(request) = asked(question) else {
        return Status::BadArgument.number();
    };
    if !are_ids(question.groups) {
        return Status::BadArgument.number();
    }
    let Ok(groups) = ids_of(alloc, question.groups) else {
        return Status::Memory.number();
    };
    answer_truth(decide(alloc, text, &request, &groups), granted, fault)
}

/// The numbers of a request, once they are judged.
#[derive(Clone, Copy)]
pub(crate) struct PosixRequest {
    pub owner: Id,
    pub group: Id,
    pub user: Id,
    pub want: Perm,
}

/// Returns the request of a question, or `None` if a number is not an id, or `want` is not a set of permissions.
pub(crate) fn asked(question: &RawPosixQuestion<'_>) -> Option<PosixRequest>
    ensures good { IsSome result ↔ AreNumbers question.now }
    ensures owner { IfSome result (λ r. r.owner.value ≡ question.now.owner) }
    ensures group { IfSome result (λ r. r.group.value ≡ question.now.group) }
    ensures user { IfSome result (λ r. r.user.value ≡ question.now.user) }
    ensures want { IfSome result (λ r. r.want.bits ≡ question.now.want) }
{
    Some(PosixRequest {
        owner: Id::new(question.owner)?,
        group: Id::new(question.group)?,
        user: Id::new(question.user)?,
        want: Perm::new(u8::try_from(question.want).ok()?)?,
    })
}

pub(crate) fn are_ids(numbers: &[u32]) -> bool
    ensures { IsTrue result ↔ All IsId numbers.now }
{
    numbers.iter().all(|number| Id::new(*number).is_some())
}

// Returns whether the access ACL of the text grants the request of a user in these groups.
fn decide(
    alloc: Global,
    text: &RawPosixText<'_>,
    request: &PosixRequest,
    groups: &[Id],
) -> Result<bool, Failure>
    ensures ok { IfOk result (Checks (SpellsFile text.now)
        (object_for request.now.owner.value request.now.group.value)
        (requester_with_ids request.now.user.value (ids groups.now)) request.now.want.bits) }
    ensures err { IfErr result (IsFileFailure text.now) }
{
    let file = file_of(alloc, text)?;
    Ok(
        file.access.check(
            request.owner,
            request.group,
            request.user,
            groups,
            request.want,
        ),
    )
}

fn ids_of(alloc: Global, numbers: &[u32]) -> Result<Vec<Id>, AllocError>
    requires { All IsId numbers.now }
    ensures { IfOk result (λ v. ids v.items ≡ numbers.now) }
{
    let mut all = Vec::new(alloc);
    for number in numbers {
        if let Some(id) = Id::new(*number) {
            all.push(id)?;
        }
    }
    Ok(all)
}
