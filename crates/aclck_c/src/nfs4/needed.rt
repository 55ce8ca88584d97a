//! Which rights of each ACE of a list are needed.
ghost use Rattle.std.specs.Prelude.{◌≡◌};
ghost use Rattle.aclck_c.specs.Lists.{HaveNeeded};
ghost use Rattle.aclck_c.specs.Common.{IfErr, IfOk, map, profile_of, WritesOfList, profile_from, IsListFailure, IsProfileOption};

use crate::failure::Failure;
use crate::options::profile_from;
use crate::out::answer;
use crate::refusal::Refusal;
use crate::status::Status;
use acl_contain::needed_of_view;
use acl_nfs4::AclView;
use acl_perm::{Mask, Profile};
use std::alloc::{AllocError, Global};

/// Writes, by place, the mask of the rights of each ACE of the list that are needed: the list cut to these masks grants
/// the same, and no right can be taken out of it (this library's own, over RFC 8881, section 6.2.1). Returns 0 if the
/// masks are at the front of `masks`; 2 if the bytes are refused, with the reason in `fault`; 3 if an option has no
/// meaning; 4 if memory ran out; 5 if `masks` is too short. At 0 and 5 `needed` is the number of ACEs.
#[unsafe(no_mangle)]
pub extern "C" fn aclck_needed(
    alloc: Global,
    acl: &[u8],
    options: u32,
    masks: &mut [u32],
    needed: &mut usize,
    fault: &mut Refusal,
) -> u32
    ensures { WritesOfList (profile_from options) acl.now (IsProfileOption options)
        (HaveNeeded (profile_from options) acl.now)
        masks.old masks.new needed.old needed.new fault.old fault.new result }
{
    let Some(profile) = profile_from(options) else {
        return Status::BadArgument.number();
    };
    answer(needed_masks(alloc, acl, profile), masks, needed, fault)
}

fn needed_masks(alloc: Global, acl: &[u8], profile: Profile) -> Result<Vec<u32>, Failure>
    ensures ok { IfOk result (λ masks. HaveNeeded (profile_of profile) acl.now masks.items) }
    ensures err { IfErr result (IsListFailure (profile_of profile) acl.now 0) }
{
    let view = AclView::parse_whole_with(acl, profile)?;
    let masks = needed_of_view(alloc, &view)?;
    Ok(numbers(alloc, &masks)?)
}

fn numbers(alloc: Global, masks: &[Mask]) -> Result<Vec<u32>, AllocError>
    ensures { IfOk result (λ numbers. numbers.items ≡ map (λ m. m.bits) masks.now) }
{
    let mut numbers = Vec::with_capacity(alloc, masks.len())?;
    for mask in masks {
        numbers.push(mask.bits())?;
    }
    Ok(numbers)
}
