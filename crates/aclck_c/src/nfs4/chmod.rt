//! The list after its mode is set.
ghost use Rattle.aclck_c.specs.Lists.{AreList, IsGoodChmod, IsRefusedChmod, MakesChmod};
ghost use Rattle.aclck_c.specs.Status as status;
ghost use Rattle.aclck_c.specs.internal.Failures.{IsChmodFailure, of_chmod};
ghost use Rattle.std.specs.Prelude.{◌≡◌};
ghost use Rattle.aclck_c.specs.Common.{IfErr, IfOk, profile_of, JudgesInput, profile_from, WritesBytes};

use crate::failure::Failure;
use crate::options::{mode_from, profile_from};
use crate::out::answer;
use crate::reason::Reason;
use crate::refusal::Refusal;
use crate::status::Status;
use acl_change::{ChmodFault, chmod};
use acl_nfs4::AclView;
use acl_perm::{Mode, Profile};
use std::alloc::Global;

/// Writes the bytes of the list of an object after its mode is set to `mode` (RFC 8881, section 6.4.1.1). Returns 0 if
/// they are at the front of `out`; 2 if the bytes are refused or the list is above a limit, with the reason in `fault`;
/// 3 if the mode is above 0o777 or an option has no meaning; 4 if memory ran out; 5 if `out` is too short. At 0 and 5
/// `needed` is the number of bytes.
#[unsafe(no_mangle)]
pub extern "C" fn aclck_chmod(
    alloc: Global,
    acl: &[u8],
    mode: u32,
    options: u32,
    out: &mut [u8],
    needed: &mut usize,
    fault: &mut Refusal,
) -> u32
    ensures bytes { WritesBytes (MakesChmod (profile_from options) mode acl.now)
        out.old out.new needed.old needed.new result }
    ensures input { JudgesInput (IsRefusedChmod (profile_from options) mode acl.now)
        (AreList (profile_from options) acl.now) (IsGoodChmod mode options) status.done_or_short
        fault.old fault.new result }
{
    let Some(mode) = mode_from(mode) else {
        return Status::BadArgument.number();
    };
    let Some(profile) = profile_from(options) else {
        return Status::BadArgument.number();
    };
    answer(changed(alloc, acl, mode, profile), out, needed, fault)
}

impl From<ChmodFault> for Failure {
    ghost from_gives = { λ fault failure. failure ≡ of_chmod fault };

    fn from(fault: ChmodFault) -> Failure {
        match fault {
            ChmodFault::Limits => Failure::Refused(Refusal::at(Reason::Limits, 0)),
            ChmodFault::Memory => Failure::Memory,
        }
    }
}

// Fails if the bytes are refused, the list is above a limit, or memory runs out.
#[tactic(auto, using(crate::proofs::Changes::chmod_failure, crate::proofs::Changes::list_failure))]
fn changed(alloc: Global, acl: &[u8], mode: Mode, profile: Profile) -> Result<Vec<u8>, Failure>
    ensures ok { IfOk result (λ bytes.
        MakesChmod (profile_of profile) mode.bits acl.now bytes.items) }
    ensures err { IfErr result (IsChmodFailure (profile_of profile) mode.bits acl.now) }
{
    let view = AclView::parse_whole_with(acl, profile)?;
    let list = chmod(alloc, &view, mode)?;
    Ok(list.to_bytes(alloc)?)
}
