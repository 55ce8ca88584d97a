//! Whether two lists grant everybody the same.
ghost use Rattle.aclck_c.specs.Compare.{AreSameOrNot};
ghost use Rattle.aclck_c.specs.Status as status;
ghost use Rattle.aclck_c.specs.Common.{IfErr, IfOk, profile_of, ReadsTwoLists, GivesAnswer, IsTruthOf, profile_from, IsPairFailure, IsProfileOption};

use crate::failure::Failure;
use crate::nfs4::compare::{are_equal, second_view_of, view_of};
use crate::options::profile_from;
use crate::out::answer_truth;
use crate::refusal::Refusal;
use crate::status::Status;
use acl_contain::same_views;
use acl_perm::Profile;
use std::alloc::Global;

/// Answers whether two lists grant everybody the same (this library's own, over RFC 8881, section 6.2.1): `same` is 1
/// if they do, and 0 if they do not or the call fails. Returns 0 if it is answered; 2 if the bytes of a list are
/// refused, with the reason in `fault`; 3 if an option has no meaning; 4 if memory ran out.
#[unsafe(no_mangle)]
pub extern "C" fn aclck_same(
    alloc: Global,
    first: &[u8],
    second: &[u8],
    options: u32,
    same: &mut u32,
    fault: &mut Refusal,
) -> u32
    ensures answer { GivesAnswer (IsTruthOf
        (AreSameOrNot (profile_from options) first.now second.now)) 0 same.new result }
    ensures input { ReadsTwoLists (profile_from options) first.now second.now
        (IsProfileOption options) status.only_done fault.old fault.new result }
{
    *same = 0;
    let Some(profile) = profile_from(options) else {
        return Status::BadArgument.number();
    };
    answer_truth(are_same(alloc, first, second, profile), same, fault)
}

#[tactic(auto, using(crate::proofs::Pairs::first_failure, crate::proofs::Pairs::second_failure))]
fn are_same(alloc: Global, first: &[u8], second: &[u8], profile: Profile) -> Result<bool, Failure>
    ensures ok { IfOk result (AreSameOrNot (profile_of profile) first.now second.now) }
    ensures err { IfErr result (IsPairFailure (profile_of profile) first.now second.now) }
{
    let list = view_of(first, profile)?;
    if are_equal(second, first) {
        return Ok(true);
    }
    let other = second_view_of(second, profile)?;
    Ok(same_views(alloc, &list, &other)?)
}
