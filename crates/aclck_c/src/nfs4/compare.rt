//! Whether two lists grant everybody the same, and where they differ.
ghost use Rattle.std.specs.List.{flat_map};
ghost use Rattle.std.specs.Str.{bytes_eq};
ghost use Rattle.acl_nfs4.specs.Spelling.{Xdr};
ghost use Rattle.acl_normal.specs.Difference.{situation_of};
ghost use Rattle.aclck_c.specs.Compare.{AreCompared, ComparesAs, ended, names_text, no_difference, not_compared};
ghost use Rattle.aclck_c.specs.Status as status;
ghost use Rattle.aclck_c.specs.internal.Reports.{IsReportOf};
ghost use Rattle.std.specs.Prelude.{[], ◌≡◌, ◌++◌, ◌≢◌};
ghost use Rattle.aclck_c.specs.Common.{IfErr, IfOk, OnOk, map, profile_of, ReadsTwoLists, profile_from, WritesBytes, IsListFailure, IsPairFailure, IsProfileOption};

use crate::failure::Failure;
use crate::options::profile_from;
use crate::out::{Made, answer_both, truth_number};
use crate::refusal::Refusal;
use crate::status::Status;
use acl_nfs4::AclView;
use acl_normal::{Difference, compare_views};
use acl_perm::Profile;
use std::alloc::{AllocError, Global};

/// `struct aclck_difference`: 1 if two lists grant the same; otherwise the right on which they differ, as a mask, 1 if
/// the first list grants it, and the number of bytes of the names for which they differ.
#[repr(C)]
#[derive(Clone, Copy, Debug)]
pub struct RawDifference {
    pub names: u64,
    pub same: u32,
    pub right: u32,
    pub first_grants: u32,
}

// What is written if there is no difference.
const NO_DIFFERENCE: RawDifference = RawDifference {
    names: 0,
    same: 1,
    right: 0,
    first_grants: 0,
};

/// What is written if a call fails.
pub(crate) const NOT_COMPARED: RawDifference = RawDifference {
    names: 0,
    same: 0,
    right: 0,
    first_grants: 0,
};

/// Answers whether two lists grant everybody the same, and if not, where they differ (this library's own, over RFC
/// 8881, section 6.2.1). If they differ, `out` begins with the names of a requester for whom they do, each with a zero
/// byte after it: the owner, the owning group, the user, the groups of the user. Returns 0 if it is answered; 2 if the
/// bytes of a list are refused, with the reason in `fault`; 3 if an option has no meaning; 4 if memory ran out; 5 if
/// they differ, and `out` is too short. At 0 and 5 `difference` is the answer, and otherwise all of it is 0.
#[unsafe(no_mangle)]
pub extern "C" fn aclck_compare(
    alloc: Global,
    first: &[u8],
    second: &[u8],
    options: u32,
    difference: &mut RawDifference,
    out: &mut [u8],
    fault: &mut Refusal,
) -> u32
    ensures input { ReadsTwoLists (profile_from options) first.now second.now
        (IsProfileOption options) status.done_or_short fault.old fault.new result }
    ensures answer { WritesBytes
        (AreCompared (profile_from options) first.now second.now difference.new)
        out.old out.new 0 difference.new.names result }
    ensures failed { (result ≢ status.done) → (result ≢ status.short)
        → difference.new ≡ not_compared }
{
    *difference = NOT_COMPARED;
    let Some(profile) = profile_from(options) else {
        return Status::BadArgument.number();
    };
    let found = compared(alloc, first, second, profile);
    answer_both(found, difference, out, &mut 0, fault)
}

/// How two lists compare, with the names as one text: a zero byte ends each name.
pub(crate) type Named = Made<RawDifference, u8>;

// Compares two lists.
#[tactic(auto, using(crate::proofs::Pairs::first_failure, crate::proofs::Pairs::second_failure))]
fn compared(alloc: Global, first: &[u8], second: &[u8], profile: Profile) -> Result<Named, Failure>
    ensures ok { IfOk result (λ found.
        AreCompared (profile_of profile) first.now second.now found.value found.items.items) }
    ensures err { IfErr result (IsPairFailure (profile_of profile) first.now second.now) }
{
    let list = view_of(first, profile)?;
    if are_equal(second, first) {
        return Ok(no_difference(alloc));
    }
    let other = second_view_of(second, profile)?;
    Ok(comparison_of(alloc, &list, &other)?)
}

pub(crate) fn are_equal(bytes: &[u8], others: &[u8]) -> bool
    ensures { result ≡ bytes_eq bytes.now others.now }
{
    bytes == others
}

/// Returns the list that all of the bytes spell, without a copy. Fails with the fault of the bytes, as the fault of the
/// first list of the call.
pub(crate) fn view_of(bytes: &[u8], profile: Profile) -> Result<AclView<'_>, Failure>
    ensures ok { IfOk result (λ list. Xdr (profile_of profile) list bytes.now) }
    ensures err { IfErr result (IsListFailure (profile_of profile) bytes.now 0) }
{
    Ok(AclView::parse_whole_with(bytes, profile)?)
}

/// Returns the list that all of the bytes spell, as `view_of` does, but the fault is that of the second list of the
/// call.
pub(crate) fn second_view_of(bytes: &[u8], profile: Profile) -> Result<AclView<'_>, Failure>
    ensures ok { IfOk result (λ list. Xdr (profile_of profile) list bytes.now) }
    ensures err { IfErr result (IsListFailure (profile_of profile) bytes.now 1) }
{
    match AclView::parse_whole_with(bytes, profile) {
        Ok(view) => Ok(view),
        Err(fault) => Err(Failure::Refused(Refusal::in_list(fault).of_second())),
    }
}

fn comparison_of(
    alloc: Global,
    list: &AclView<'_>,
    other: &AclView<'_>,
) -> Result<Named, AllocError>
    ensures { IfOk result (λ found. ComparesAs list.now other.now found.value found.items.items) }
{
    match compare_views(alloc, list, other)? {
        None => Ok(no_difference(alloc)),
        Some(found) => Ok(report_of(alloc, &found)?),
    }
}

/// What is returned if both lists grant the same. It takes no memory.
pub(crate) fn no_difference(alloc: Global) -> Named
    ensures at { result.value ≡ no_difference }
    ensures names { result.items.items ≡ [] }
{
    Made {
        value: NO_DIFFERENCE,
        items: Vec::new(alloc),
    }
}

/// Returns a difference as C sees it, with its names.
pub(crate) fn report_of(alloc: Global, found: &Difference) -> Result<Named, AllocError>
    ensures { IfOk result (IsReportOf (situation_of found.now)
        found.now.bit.bits found.now.first_grants) }
{
    let names = names_of(alloc, found)?;
    Ok(Made {
        value: RawDifference {
            names: names.len() as u64,
            same: 0,
            right: found.bit.bits(),
            first_grants: truth_number(found.first_grants),
        },
        items: names,
    })
}

fn names_of(alloc: Global, found: &Difference) -> Result<Vec<u8>, AllocError>
    ensures { IfOk result (λ text. text.items ≡ names_text (situation_of found.now)) }
{
    let mut text = Vec::new(alloc);
    add_name(&mut text, &found.owner)?;
    add_name(&mut text, &found.group)?;
    add_name(&mut text, &found.user)?;
    add_members(&mut text, &found.groups)?;
    Ok(text)
}

fn add_members(text: &mut Vec<u8>, groups: &[Vec<u8>]) -> Result<(), AllocError>
    ensures { OnOk result (text.new.items
        ≡ text.old.items ++ flat_map ended (map (λ g. g.items) groups.now)) }
{
    for group in groups {
        add_name(text, group)?;
    }
    Ok(())
}

// Adds a name and a zero byte.
fn add_name(text: &mut Vec<u8>, name: &[u8]) -> Result<(), AllocError>
    ensures { OnOk result (text.new.items ≡ text.old.items ++ ended name.now) }
{
    text.extend_from_slice(name)?;
    text.push(0)?;
    Ok(())
}
