//! What a list keeps under a bound, on its object and on everything that will be created below it.
ghost use Rattle.aclck_c.specs.Restricting.{MakesRestrictedEverywhere};
ghost use Rattle.aclck_c.specs.Status as status;
ghost use Rattle.aclck_c.specs.Common.{IfErr, IfOk, profile_of, ReadsTwoLists, profile_from, WritesBytes, IsPairFailure, IsProfileOption};

use crate::failure::Failure;
use crate::nfs4::reading::{list_of, second_list_of};
use crate::nfs4::restricted::RawBound;
use crate::options::profile_from;
use crate::out::answer;
use crate::refusal::Refusal;
use crate::status::Status;
use acl_contain::restricted_everywhere;
use acl_perm::Profile;
use std::alloc::Global;

/// Writes the bytes of what a list keeps under a bound, which is a list too, on its object and on everything that will
/// ever be created below it (this library's own, over RFC 8881, section 6.2.1, and its table of inheritance). Of all
/// lists that are made by taking rights out of ALLOWs, and that grant at most what the bound grants there, on each of
/// these objects, it is the one that keeps most. Returns 0 if the bytes are at the front of `out`; 2 if the bytes of a
/// list are refused, with the reason in `fault`; 3 if an option has no meaning; 4 if memory ran out; 5 if `out` is too
/// short. At 0 and 5 `needed` is the number of bytes.
#[unsafe(no_mangle)]
pub extern "C" fn aclck_restricted_everywhere(
    alloc: Global,
    acl: &[u8],
    bound: &RawBound<'_>,
    options: u32,
    out: &mut [u8],
    needed: &mut usize,
    fault: &mut Refusal,
) -> u32
    ensures bytes { WritesBytes
        (MakesRestrictedEverywhere (profile_from options) acl.now bound.now.bytes.now)
        out.old out.new needed.old needed.new result }
    ensures input { ReadsTwoLists (profile_from options) acl.now bound.now.bytes.now
        (IsProfileOption options) status.done_or_short fault.old fault.new result }
{
    let Some(profile) = profile_from(options) else {
        return Status::BadArgument.number();
    };
    answer(
        everywhere_bytes(alloc, acl, bound.bytes, profile),
        out,
        needed,
        fault,
    )
}

#[tactic(auto, using(crate::proofs::Pairs::first_failure, crate::proofs::Pairs::second_failure))]
fn everywhere_bytes(
    alloc: Global,
    acl: &[u8],
    bound: &[u8],
    profile: Profile,
) -> Result<Vec<u8>, Failure>
    ensures ok { IfOk result (λ bytes.
        MakesRestrictedEverywhere (profile_of profile) acl.now bound.now bytes.items) }
    ensures err { IfErr result (IsPairFailure (profile_of profile) acl.now bound.now) }
{
    let list = list_of(alloc, acl, profile)?;
    let limit = second_list_of(alloc, bound, profile)?;
    let kept = restricted_everywhere(alloc, &list, &limit)?;
    Ok(kept.to_bytes(alloc)?)
}
