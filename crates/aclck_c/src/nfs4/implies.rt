//! Whether whoever gets one right from a list also gets some others, and if not, who does not.
ghost use Rattle.acl_perm.specs.Profile.{profile_of};
ghost use Rattle.aclck_c.specs.Compare.{not_compared};
ghost use Rattle.aclck_c.specs.Implies.{HasImplication, HasImplicationOf, ImpliesAs, IsGoodImplication};
ghost use Rattle.aclck_c.specs.Requests.{IsRight};
ghost use Rattle.aclck_c.specs.Call.{ReadsList};
ghost use Rattle.aclck_c.specs.Status as status;
ghost use Rattle.std.specs.Prelude.{◌↔◌, ◌≡◌, IsSome};
ghost use Rattle.aclck_c.specs.Common.{IfErr, IfOk, IfSome, profile_from, WritesBytes, IsListFailure};

use crate::failure::Failure;
use crate::nfs4::compare::{NOT_COMPARED, Named, RawDifference, no_difference, report_of};
use crate::nfs4::deciding::right_of;
use crate::nfs4::reading::list_of;
use crate::options::profile_from;
use crate::out::answer_both;
use crate::refusal::Refusal;
use crate::status::Status;
use acl_contain::implies;
use acl_nfs4::Acl;
use acl_perm::{Mask, Profile, Right};
use std::alloc::{AllocError, Global};

/// `struct aclck_implication`: whether whoever gets a right gets others, and the options.
#[repr(C)]
#[derive(Clone, Copy, Debug)]
pub struct RawImplication {
    pub right: u32,
    pub others: u32,
    pub options: u32,
}

// What is asked, as values.
#[derive(Clone, Copy)]
struct Question {
    right: Right,
    others: Mask,
    profile: Profile,
}

/// Answers whether the list grants each of the others to everybody to whom it grants the right (this library's own,
/// over RFC 8881, section 6.2.1). If it does not, `difference` has a right that is missing, and `out` begins with the
/// names of a requester for whom it is, each with a zero byte after it, as those of `aclck_compare`. If it does, `same`
/// is 1. Returns 0 if it is answered; 2 if the bytes are refused, with the reason in `fault`; 3 if `right` is not
/// exactly one right, `others` is no mask, or an option has no meaning; 4 if memory ran out; 5 if a right is missing,
/// and `out` is too short. At 0 and 5 `difference` is the answer, and otherwise all of it is 0.
#[unsafe(no_mangle)]
pub extern "C" fn aclck_implies(
    alloc: Global,
    acl: &[u8],
    implication: &RawImplication,
    difference: &mut RawDifference,
    out: &mut [u8],
    fault: &mut Refusal,
) -> u32
    ensures input { ReadsList (profile_from implication.now.options) acl.now
        (IsGoodImplication implication.now) fault.old fault.new result }
    ensures answer { WritesBytes (HasImplicationOf (profile_from implication.now.options) acl.now
        implication.now.right implication.now.others difference.new)
        out.old out.new 0 difference.new.names result }
    ensures failed { status.IfUnanswered result (difference.new ≡ not_compared) }
{
    *difference = NOT_COMPARED;
    let Some(question) = asked(implication) else {
        return Status::BadArgument.number();
    };
    let found = found_in(alloc, acl, question);
    answer_both(found, difference, out, &mut 0, fault)
}

// Returns what is asked, or `None` if an argument has no meaning.
fn asked(implication: &RawImplication) -> Option<Question>
    ensures good { IsSome result ↔ IsGoodImplication implication.now }
    ensures right { IfSome result (λ question. IsRight implication.now.right question.right.bit) }
    ensures others { IfSome result (λ question. question.others.bits ≡ implication.now.others) }
    ensures profile { IfSome result (λ question. profile_of question.profile
        ≡ profile_from implication.now.options) }
{
    Some(Question {
        right: right_of(Mask::new(implication.right)?)?,
        others: Mask::new(implication.others)?,
        profile: profile_from(implication.options)?,
    })
}

// Fails if the bytes are refused, or memory runs out.
fn found_in(alloc: Global, acl: &[u8], question: Question) -> Result<Named, Failure>
    ensures ok { IfOk result (λ found. HasImplication (profile_of question.profile) acl.now
        question.right.bit question.others.bits found.value found.items.items) }
    ensures err { IfErr result (IsListFailure (profile_of question.profile) acl.now 0) }
{
    let list = list_of(alloc, acl, question.profile)?;
    Ok(implication_of(alloc, &list, question)?)
}

fn implication_of(alloc: Global, list: &Acl, question: Question) -> Result<Named, AllocError>
    ensures { IfOk result (λ found.
        ImpliesAs list.now question.right.bit question.others.bits found.value found.items.items) }
{
    match implies(alloc, list, question.right, question.others)? {
        None => Ok(no_difference(alloc)),
        Some(found) => Ok(report_of(alloc, &found)?),
    }
}
