//! The bytes of a list of an array of ACEs.
ghost use Rattle.aclck_c.specs.Build.{AreAces, Builds, IsRefusedBuild, ace_given, push_reason};
ghost use Rattle.aclck_c.specs.Status as status;
ghost use Rattle.aclck_c.specs.internal.Building.{AddsAce, AddsNext};
ghost use Rattle.aclck_c.specs.internal.Failures.{IsBuildFailure};
ghost use Rattle.std.specs.Prelude.{◌≡◌};
ghost use Rattle.aclck_c.specs.Common.{⊤, IfErr, IfOk, OnOk, map, profile_of, JudgesInput, profile_from, WritesBytes, IsProfileOption};

use crate::failure::Failure;
use crate::nfs4::ace::RawAce;
use crate::options::profile_from;
use crate::out::answer;
use crate::reason::Reason;
use crate::refusal::Refusal;
use crate::status::Status;
use acl_nfs4::{Acl, PushFault, Reason as ListReason};
use acl_perm::Profile;
use std::alloc::Global;

/// Writes the bytes of the list of these ACEs, in their order (RFC 8881, section 6.2.1). Returns 0 if they are at the
/// front of `out`; 2 if an ACE is refused, with the reason and the number of the ACE in `fault`; 3 if an option has no
/// meaning; 4 if memory ran out; 5 if `out` is too short. At 0 and 5 `needed` is the number of bytes.
#[unsafe(no_mangle)]
pub extern "C" fn aclck_build(
    alloc: Global,
    aces: &[RawAce<'_>],
    options: u32,
    out: &mut [u8],
    needed: &mut usize,
    fault: &mut Refusal,
) -> u32
    ensures bytes { WritesBytes (Builds (profile_from options) aces.now)
        out.old out.new needed.old needed.new result }
    ensures input { JudgesInput (IsRefusedBuild (profile_from options) aces.now) ⊤
        (IsProfileOption options) status.done_or_short fault.old fault.new result }
{
    let Some(profile) = profile_from(options) else {
        return Status::BadArgument.number();
    };
    answer(built(alloc, aces, profile), out, needed, fault)
}

fn built(alloc: Global, aces: &[RawAce<'_>], profile: Profile) -> Result<Vec<u8>, Failure>
    ensures ok { IfOk result (λ bytes. Builds (profile_of profile) aces.now bytes.items) }
    ensures err { IfErr result (IsBuildFailure (profile_of profile) aces.now) }
{
    let list = list_of(alloc, aces, profile)?;
    Ok(list.to_bytes(alloc)?)
}

// Fails if an ACE is refused or memory runs out.
fn list_of(alloc: Global, aces: &[RawAce<'_>], profile: Profile) -> Result<Acl, Failure>
    ensures list { IfOk result (λ list. list ≡ map ace_given aces.now) }
    ensures aces { OnOk result (AreAces (profile_of profile) aces.now) }
    ensures err { IfErr result (IsBuildFailure (profile_of profile) aces.now) }
{
    let mut list = Acl::new(alloc);
    for item in aces {
        add(&mut list, item, profile)?;
    }
    Ok(list)
}

// Adds an ACE. A refusal has the place that the ACE would have.
fn add(list: &mut Acl, item: &RawAce<'_>, profile: Profile) -> Result<(), Failure>
    ensures { AddsAce (profile_of profile) item.now result list.old list.new }
{
    match push(list, item, profile) {
        Ok(()) => Ok(()),
        Err(ListReason::Memory) => Err(Failure::Memory),
        Err(reason) => Err(Failure::Refused(Refusal::at(Reason::from(reason), list.len() as u64))),
    }
}

fn push(list: &mut Acl, item: &RawAce<'_>, profile: Profile) -> Result<(), ListReason>
    ensures { AddsNext (profile_of profile) item.now result list.old list.new }
{
    let item = item.judged(profile)?;
    match list.push(item) {
        Ok(()) => Ok(()),
        Err(fault) => Err(push_reason(fault)),
    }
}

fn push_reason(fault: PushFault) -> ListReason
    ensures { result ≡ push_reason fault }
{
    match fault {
        PushFault::TooManyAces => ListReason::TooManyAces,
        PushFault::TooHeavy => ListReason::TooHeavy,
        PushFault::WhoLength => ListReason::WhoLength,
        PushFault::WhoUtf8 => ListReason::WhoUtf8,
        PushFault::WhoControl => ListReason::WhoControl,
        PushFault::SpecialWho => ListReason::SpecialWho,
        PushFault::Memory => ListReason::Memory,
    }
}
