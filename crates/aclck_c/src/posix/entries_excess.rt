//! What the entries of one POSIX ACL grant more than those of another. The call takes no memory.
ghost use Rattle.std.specs.Prelude.{◌≡◌};
ghost use Rattle.acl_posix.specs.Entries.{as_set};
ghost use Rattle.acl_posix.specs.RawEntries.{raw_pairs};
ghost use Rattle.acl_posix.specs.View.{IsCanonical};
ghost use Rattle.aclck_c.specs.EntriesExcess.{ExceedEntries, ExceedsBy, LooksAtTwoAcls, posix_not_compared, raw_posix_difference};
ghost use Rattle.aclck_c.specs.internal.Failures.{AreBothFailure, AreSecondFailure};
ghost use Rattle.aclck_c.specs.Common.{IfErr, IfOk, OnOk, GivesAnswer};

use crate::failure::Failure;
use crate::out::answer_value;
use crate::posix::entries_check::view_refusal;
use crate::refusal::Refusal;
use acl_posix::{EntriesView, FewGroups, PosixDifference, RawEntry};

/// `struct aclck_posix_difference`: 1 if the second ACL grants whatever the first grants; otherwise the owner and the
/// group of an object, a user and the groups of that user, at most two, and the permissions that this user is granted
/// together by the first ACL and denied by the second.
#[repr(C)]
#[derive(Clone, Copy, Debug)]
pub struct RawPosixDifference {
    pub same: u32,
    pub owner: u32,
    pub group: u32,
    pub user: u32,
    pub want: u32,
    pub ngroups: u32,
    pub first_group: u32,
    pub second_group: u32,
}

const NO_DIFFERENCE: RawPosixDifference = RawPosixDifference {
    same: 1,
    owner: 0,
    group: 0,
    user: 0,
    want: 0,
    ngroups: 0,
    first_group: 0,
    second_group: 0,
};

const NOT_COMPARED: RawPosixDifference = RawPosixDifference {
    same: 0,
    ..NO_DIFFERENCE
};

/// Answers whether the entries of a first ACL grant anybody a request that those of a second deny (this library's own,
/// over acl(5), "ACCESS CHECK ALGORITHM"). If they do, `difference` has a requester and the request, which is the
/// lowest number for which there is a requester; otherwise `same` is 1. All of `difference` is 0 if the call fails.
/// Returns 0 if it is answered, and 2 if the entries of an ACL are refused, with the reason in `fault`. It takes no
/// memory.
#[unsafe(no_mangle)]
pub extern "C" fn aclck_entries_excess(
    first: &[RawEntry],
    second: &[RawEntry],
    difference: &mut RawPosixDifference,
    fault: &mut Refusal,
) -> u32
    ensures answer { GivesAnswer (ExceedEntries first.now second.now)
        posix_not_compared difference.new result }
    ensures input { LooksAtTwoAcls first.now second.now fault.old fault.new result }
{
    *difference = NOT_COMPARED;
    answer_value(exceeding(first, second), difference, fault)
}

// Fails if the entries of one of the ACLs are refused.
#[tactic(auto, using(crate::proofs::EntriesFailures::first_view_failure, crate::proofs::EntriesFailures::second_view_failure))]
fn exceeding(first: &[RawEntry], second: &[RawEntry]) -> Result<RawPosixDifference, Failure>
    ensures ok { IfOk result (ExceedEntries first.now second.now) }
    ensures err { IfErr result (AreBothFailure first.now second.now) }
{
    let acl = EntriesView::new(first)?;
    let other = second_view(second)?;
    Ok(compared(&acl, &other))
}

fn compared(first: &EntriesView<'_>, second: &EntriesView<'_>) -> RawPosixDifference
    ensures { ExceedsBy first.now second.now result }
{
    match first.excess(second) {
        Some(found) => numbers_of(&found),
        None => NO_DIFFERENCE,
    }
}

// Fails with the fault of the entries as that of the second ACL of a call.
fn second_view(entries: &[RawEntry]) -> Result<EntriesView<'_>, Failure>
    ensures canonical { OnOk result (IsCanonical entries.now) }
    ensures view { IfOk result (λ view. view ≡ as_set (raw_pairs entries.now)) }
    ensures err { IfErr result (AreSecondFailure entries.now) }
{
    match EntriesView::new(entries) {
        Ok(view) => Ok(view),
        Err(fault) => Err(Failure::Refused(view_refusal(fault).of_second())),
    }
}

fn numbers_of(found: &PosixDifference) -> RawPosixDifference
    ensures { result ≡ raw_posix_difference found.now }
{
    let (ngroups, first_group, second_group) = match found.groups {
        FewGroups::None => (0, 0, 0),
        FewGroups::One(group) => (1, group.value, 0),
        FewGroups::Two(one, two) => (2, one.value, two.value),
    };
    RawPosixDifference {
        same: 0,
        owner: found.owner.value,
        group: found.group.value,
        user: found.user.value,
        want: u32::from(found.request.bits),
        ngroups,
        first_group,
        second_group,
    }
}
