//! The list in which a group stands for each special identifier that nobody knows.
ghost use Rattle.acl_nfs4.specs.AccessPart.{IsPartOf};
ghost use Rattle.aclck_c.specs.Common.{⊤, IfErr, IfOk, IsProfileOption, JudgesInput, WritesBytes, profile_from, profile_of};
ghost use Rattle.aclck_c.specs.Status as status;
ghost use Rattle.aclck_c.specs.UnknownGroups.{IsRefusedNaming, MakesWithGroups};
ghost use Rattle.aclck_c.specs.internal.Failures.{IsNamingFailure, of_groups};
ghost use Rattle.std.specs.Prelude.{◌≡◌};

use crate::failure::Failure;
use crate::nfs4::ids::unknown_at;
use crate::nfs4::unknown::part_of;
use crate::options::profile_from;
use crate::out::answer;
use crate::reason::Reason;
use crate::refusal::Refusal;
use crate::status::Status;
use acl_nfs4::GroupsFault;
use acl_perm::Profile;
use std::alloc::Global;

/// `aclck_bytes` behind a pointer: what follows a special identifier in the name of its group.
#[repr(C)]
#[derive(Clone, Copy, Debug)]
pub struct RawSuffix<'a> {
    pub bytes: &'a [u8],
}

/// Writes the bytes of the list in which a group stands for each special identifier that nobody knows (this library's
/// own, over RFC 8881, section 6.2.1.5): the name of the group is the identifier followed by the suffix. AUDIT and
/// ALARM ACEs are left out, and an ACE is counted by its place among those that stay. Returns 0 if the bytes are at the
/// front of `out`; 2 if the bytes are refused, if an identifier with the suffix is not the name of a group, or if an
/// ACE is for a group of such a name, with the reason in `fault`; 3 if an option has no meaning; 4 if memory ran out; 5
/// if `out` is too short. At 0 and 5 `needed` is the number of bytes.
#[unsafe(no_mangle)]
pub extern "C" fn aclck_with_groups(
    alloc: Global,
    acl: &[u8],
    suffix: &RawSuffix<'_>,
    options: u32,
    out: &mut [u8],
    needed: &mut usize,
    fault: &mut Refusal,
) -> u32
    ensures bytes { WritesBytes
        (MakesWithGroups (profile_from options) acl.now suffix.now.bytes.now)
        out.old out.new needed.old needed.new result }
    ensures input { JudgesInput
        (IsRefusedNaming (profile_from options) acl.now suffix.now.bytes.now) ⊤
        (IsProfileOption options) status.done_or_short fault.old fault.new result }
{
    let Some(profile) = profile_from(options) else {
        return Status::BadArgument.number();
    };
    answer(
        with_groups(alloc, acl, suffix.bytes, profile),
        out,
        needed,
        fault,
    )
}

impl From<GroupsFault> for Failure {
    ghost from_gives = { λ fault failure. failure ≡ of_groups fault };

    fn from(fault: GroupsFault) -> Failure {
        match fault {
            GroupsFault::Name(place) => Failure::Refused(unknown_at(place)),
            GroupsFault::Merged(place) => Failure::Refused(Refusal::at(
                Reason::Merged,
                place as u64,
            )),
            GroupsFault::Memory => Failure::Memory,
        }
    }
}

// Fails if the bytes are refused, an identifier gets no group of its own, or memory runs out.
#[tactic(auto, using(crate::proofs::GroupsNamed::groups_failure, crate::proofs::GroupsNamed::part_failure))]
fn with_groups(
    alloc: Global,
    acl: &[u8],
    suffix: &[u8],
    profile: Profile,
) -> Result<Vec<u8>, Failure>
    ensures ok { IfOk result (λ bytes.
        MakesWithGroups (profile_of profile) acl.now suffix.now bytes.items) }
    ensures err { IfErr result (IsNamingFailure (profile_of profile) acl.now suffix.now) }
{
    let part = part_of(alloc, acl, profile)?;
    let list = part.with_groups(alloc, suffix)?;
    Ok(list.to_bytes(alloc)?)
}
