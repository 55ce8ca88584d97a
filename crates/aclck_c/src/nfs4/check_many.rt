//! Which rights of a mask a list grants many requesters.
ghost use Rattle.acl_eval.specs.Situation.{owner_of, owning_group_of};
ghost use Rattle.aclck_c.specs.Many.{AreEachGranted, AreGoodMany, HaveGranted, IsGoodCall, nothing_for};
ghost use Rattle.aclck_c.specs.Requests.{AreGranted, IsGoodRequester, asked_by};
ghost use Rattle.std.specs.Prelude.{◌≡◌, ◌<◌, ◌↔◌};
ghost use Rattle.aclck_c.specs.Common.{All, IfSome, IsSome, IsTrue, length, profile_of, LooksAtList, profile_from, GivesAnswer};

use crate::failure::Failure;
use crate::nfs4::request::{RawObject, RawQuestion, RawRequester, with_sorted_groups};
use crate::options::profile_from;
use crate::refusal::Refusal;
use crate::status::Status;
use acl_eval::{Object, Requester, granted};
use acl_nfs4::AclView;
use acl_perm::{Mask, Profile};
use std::alloc::Global;

/// Answers which of the rights that are asked the list that the bytes spell grants each of the requesters on the object
/// (RFC 8881, section 6.2.1), and reads the list once: they are in `rights`, one number for each requester, which are
/// all 0 if the call fails. Returns 0 if it is answered; 2 if the bytes are refused, with the reason in `fault`; 3 if a
/// name is empty, a number or an option has no meaning, or `rights` has another length than `requesters`. It takes
/// memory only to sort many groups in no order, and does not fail if there is none.
#[unsafe(no_mangle)]
pub extern "C" fn aclck_check_many(
    alloc: Global,
    acl: &[u8],
    object: &RawObject<'_>,
    requesters: &[RawRequester<'_>],
    question: &RawQuestion,
    rights: &mut [u32],
    fault: &mut Refusal,
) -> u32
    ensures answer { GivesAnswer (HaveGranted (profile_from question.now.options) acl.now object.now
        requesters.now question.now.mask) (nothing_for rights.old) rights.new result }
    ensures input { LooksAtList (profile_from question.now.options) acl.now
        (AreGoodMany object.now requesters.now question.now (length rights.old))
        fault.old fault.new result }
{
    rights.fill(0);
    let Some(request) = asked(object, question) else {
        return Status::BadArgument.number();
    };
    if rights.len() != requesters.len() || !are_good(requesters) {
        return Status::BadArgument.number();
    }
    match AclView::parse_whole_with(acl, request.profile) {
        Ok(view) => {
            grant_each(alloc, &view, &request, requesters, rights);
            Status::Done.number()
        }
        Err(found) => Failure::from(found).report(fault).number(),
    }
}

// What is the same for all requesters: the object, the rights that are requested, and the profile.
#[derive(Clone, Copy)]
struct Many<'a> {
    object: Object<'a>,
    mask: Mask,
    profile: Profile,
}

fn asked<'a>(object: &RawObject<'a>, question: &RawQuestion) -> Option<Many<'a>>
    ensures good { IsSome result ↔ IsGoodCall object.now question.now }
    ensures owner { IfSome result (λ r. owner_of r.object ≡ object.now.owner.now) }
    ensures group { IfSome result (λ r. owning_group_of r.object ≡ object.now.group.now) }
    ensures mask { IfSome result (λ r. r.mask.bits ≡ question.now.mask) }
    ensures profile { IfSome result (λ r.
        profile_of r.profile ≡ profile_from question.now.options) }
{
    Some(Many {
        object: Object::new(object.owner, object.group)?,
        mask: Mask::new(question.mask)?,
        profile: profile_from(question.options)?,
    })
}

/// Returns whether no name of the requesters is empty.
pub(crate) fn are_good(requesters: &[RawRequester<'_>]) -> bool
    ensures { IsTrue result ↔ All IsGoodRequester requesters.now }
{
    requesters.iter().all(|who| is_good(who))
}

fn is_good(who: &RawRequester<'_>) -> bool
    ensures { IsTrue result ↔ IsGoodRequester who.now }
{
    Requester::new(who.user, who.groups).is_some()
}

// Writes for each requester the rights that the list grants.
fn grant_each(
    alloc: Global,
    view: &AclView<'_>,
    request: &Many<'_>,
    requesters: &[RawRequester<'_>],
    rights: &mut [u32],
)
    requires good { All IsGoodRequester requesters.now }
    requires count { length rights.old ≡ length requesters.now }
    ensures count { length rights.new ≡ length requesters.now }
    ensures rights { AreEachGranted view.now (owner_of request.now.object)
        (owning_group_of request.now.object) requesters.now request.now.mask.bits rights.new }
{
    for (place, who) in requesters.iter().enumerate() {
        rights[place] = granted_to(alloc, view, request, who);
    }
}

// The rights that the list grants a requester.
fn granted_to(alloc: Global, view: &AclView<'_>, request: &Many<'_>, who: &RawRequester<'_>) -> u32
    requires { IsGoodRequester who.now }
    ensures { AreGranted view.now (asked_by (owner_of request.now.object)
        (owning_group_of request.now.object) who.now) request.now.mask.bits result }
{
    match Requester::new(who.user, who.groups) {
        Some(requester) => {
            let sorted = with_sorted_groups(alloc, requester, view.len());
            granted(
                view.aces(),
                &request.object,
                &sorted.requester(),
                request.mask,
            )
            .bits()
        }
        None => 0,
    }
}
