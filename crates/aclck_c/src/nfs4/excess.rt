//! Whether one list grants more than another, and what.
ghost use Rattle.aclck_c.specs.Compare.{not_compared};
ghost use Rattle.aclck_c.specs.Excess.{AreExcess, ExceedsAs};
ghost use Rattle.aclck_c.specs.Status as status;
ghost use Rattle.std.specs.Prelude.{◌≡◌};
ghost use Rattle.aclck_c.specs.Common.{IfErr, IfOk, profile_of, ReadsTwoLists, profile_from, WritesBytes, IsPairFailure, IsProfileOption};

use crate::failure::Failure;
use crate::nfs4::compare::{NOT_COMPARED, Named, RawDifference, no_difference, report_of};
use crate::nfs4::reading::{list_of, second_list_of};
use crate::options::profile_from;
use crate::out::answer_both;
use crate::refusal::Refusal;
use crate::status::Status;
use acl_contain::excess;
use acl_nfs4::Acl;
use acl_perm::Profile;
use std::alloc::{AllocError, Global};

/// Answers whether the first list grants anybody a right that the second denies (this library's own, over RFC 8881,
/// section 6.2.1). If it does, `difference` has the right, and `out` begins with the names of a requester for whom it
/// does, each with a zero byte after it, as those of `aclck_compare`. If the second list grants whatever the first
/// grants, `same` is 1. Returns 0 if it is answered; 2 if the bytes of a list are refused, with the reason in `fault`;
/// 3 if an option has no meaning; 4 if memory ran out; 5 if the first grants more, and `out` is too short. At 0 and 5
/// `difference` is the answer, and otherwise all of it is 0.
#[unsafe(no_mangle)]
pub extern "C" fn aclck_excess(
    alloc: Global,
    first: &[u8],
    second: &[u8],
    options: u32,
    difference: &mut RawDifference,
    out: &mut [u8],
    fault: &mut Refusal,
) -> u32
    ensures input { ReadsTwoLists (profile_from options) first.now second.now
        (IsProfileOption options) status.done_or_short fault.old fault.new result }
    ensures answer { WritesBytes
        (AreExcess (profile_from options) first.now second.now difference.new)
        out.old out.new 0 difference.new.names result }
    ensures failed { status.IfUnanswered result (difference.new ≡ not_compared) }
{
    *difference = NOT_COMPARED;
    let Some(profile) = profile_from(options) else {
        return Status::BadArgument.number();
    };
    let found = exceeding(alloc, first, second, profile);
    answer_both(found, difference, out, &mut 0, fault)
}

#[tactic(auto, using(crate::proofs::Pairs::first_failure, crate::proofs::Pairs::second_failure))]
fn exceeding(alloc: Global, first: &[u8], second: &[u8], profile: Profile) -> Result<Named, Failure>
    ensures ok { IfOk result (λ found.
        AreExcess (profile_of profile) first.now second.now found.value found.items.items) }
    ensures err { IfErr result (IsPairFailure (profile_of profile) first.now second.now) }
{
    let list = list_of(alloc, first, profile)?;
    let other = second_list_of(alloc, second, profile)?;
    Ok(excess_of(alloc, &list, &other)?)
}

fn excess_of(alloc: Global, list: &Acl, other: &Acl) -> Result<Named, AllocError>
    ensures { IfOk result (λ found. ExceedsAs list.now other.now found.value found.items.items) }
{
    match excess(alloc, list, other)? {
        None => Ok(no_difference(alloc)),
        Some(found) => Ok(report_of(alloc, &found)?),
    }
}
