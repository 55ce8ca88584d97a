//! A request: the object, the requester, and what is asked.
ghost use Rattle.std.specs.Prelude.{◌≡◌, ◌<◌, ◌↔◌};
ghost use Rattle.acl_eval.specs.SortedRequester.{requester_of};
ghost use Rattle.acl_eval.specs.declared.situation.Object.{Object};
ghost use Rattle.aclck_c.specs.Common.{IfSome, IsSome, profile_of, situation, profile_from, AreGood, asked};

use crate::options::profile_from;
use acl_eval::{Object, Requester, SortedRequester};
use acl_perm::{Mask, Profile};
use std::alloc::Global;

/// `struct aclck_object`: the owner of an object, and its owning group.
#[repr(C)]
#[derive(Clone, Copy, Debug)]
pub struct RawObject<'a> {
    pub owner: &'a [u8],
    pub group: &'a [u8],
}

/// `struct aclck_requester`: a user, and the groups of that user.
#[repr(C)]
#[derive(Clone, Copy, Debug)]
pub struct RawRequester<'a> {
    pub user: &'a [u8],
    pub groups: &'a [&'a [u8]],
}

/// `struct aclck_question`: the rights that are asked, and the options.
#[repr(C)]
#[derive(Clone, Copy, Debug)]
pub struct RawQuestion {
    pub mask: u32,
    pub options: u32,
}

/// A request of a call: the object, the requester, the rights that are requested, and the profile.
#[derive(Clone, Copy)]
pub(crate) struct NfsRequest<'a> {
    pub object: Object<'a>,
    pub requester: Requester<'a>,
    pub mask: Mask,
    pub profile: Profile,
}

/// Makes a request. Returns `None` if a name is empty, a bit of the mask is not a right, or an option has no meaning.
pub(crate) fn asked<'a>(
    object: &RawObject<'a>,
    requester: &RawRequester<'a>,
    question: &RawQuestion,
) -> Option<NfsRequest<'a>>
    ensures good { IsSome result ↔ AreGood object.now requester.now question.now }
    ensures situation { IfSome result (λ r. situation r.object r.requester
        ≡ asked object.now requester.now) }
    ensures mask { IfSome result (λ r. r.mask.bits ≡ question.now.mask) }
    ensures profile { IfSome result (λ r.
        profile_of r.profile ≡ profile_from question.now.options) }
{
    Some(NfsRequest {
        object: Object::new(object.owner, object.group)?,
        requester: Requester::new(requester.user, requester.groups)?,
        mask: Mask::new(question.mask)?,
        profile: profile_from(question.options)?,
    })
}

/// Sorts a copy of the groups of a requester if they are many and in no order, for a list of at most this many ACEs. If
/// memory runs out, there is no copy: the answers are the same, and take longer.
pub(crate) fn with_sorted_groups<'a>(
    alloc: Global,
    requester: Requester<'a>,
    aces: usize,
) -> SortedRequester<'a>
    ensures { (object : Object)
        → situation object (requester_of result) ≡ situation object requester.entry }
{
    match SortedRequester::new(alloc, requester, aces) {
        Ok(sorted) => sorted,
        Err(_) => SortedRequester::unsorted(requester),
    }
}
