//! The list for one object, in which its owner and its owning group stand for `OWNER@` and `GROUP@`.
ghost use Rattle.acl_eval.specs.Situation.{owner_of, owning_group_of};
ghost use Rattle.aclck_c.specs.Common.{IfErr, IfOk, JudgesInput, WritesBytes, profile_from, profile_of};
ghost use Rattle.aclck_c.specs.Lists.{AreList};
ghost use Rattle.aclck_c.specs.Resolving.{IsGoodResolving, IsRefusedObject, MakesResolved};
ghost use Rattle.aclck_c.specs.Status as status;
ghost use Rattle.aclck_c.specs.internal.Failures.{IsObjectFailure, of_resolve};
ghost use Rattle.std.specs.Prelude.{◌≡◌};

use crate::failure::Failure;
use crate::nfs4::ids::unknown_at;
use crate::nfs4::request::RawObject;
use crate::options::profile_from;
use crate::out::answer;
use crate::refusal::Refusal;
use crate::status::Status;
use acl_change::{ResolveFault, resolved};
use acl_eval::Object;
use acl_nfs4::AclView;
use acl_perm::Profile;
use std::alloc::Global;

/// Writes the bytes of the list in which the names of the object's owner and of its owning group stand for `OWNER@` and
/// `GROUP@` (this library's own, over RFC 8881, section 6.2.1.5). Returns 0 if they are at the front of `out`; 2 if the
/// bytes are refused, or if an ACE needs a name that no ACE can have, with the reason in `fault`; 3 if a name is empty
/// or an option has no meaning; 4 if memory ran out; 5 if `out` is too short. At 0 and 5 `needed` is the number of
/// bytes.
#[unsafe(no_mangle)]
pub extern "C" fn aclck_resolved(
    alloc: Global,
    acl: &[u8],
    object: &RawObject<'_>,
    options: u32,
    out: &mut [u8],
    needed: &mut usize,
    fault: &mut Refusal,
) -> u32
    ensures bytes { WritesBytes
        (MakesResolved (profile_from options) acl.now object.now.owner.now object.now.group.now)
        out.old out.new needed.old needed.new result }
    ensures input { JudgesInput
        (IsRefusedObject (profile_from options) acl.now object.now.owner.now object.now.group.now)
        (AreList (profile_from options) acl.now) (IsGoodResolving object.now options)
        status.done_or_short
        fault.old fault.new result }
{
    let Some(object) = Object::new(object.owner, object.group) else {
        return Status::BadArgument.number();
    };
    let Some(profile) = profile_from(options) else {
        return Status::BadArgument.number();
    };
    answer(named(alloc, acl, &object, profile), out, needed, fault)
}

impl From<ResolveFault> for Failure {
    ghost from_gives = { λ fault failure. failure ≡ of_resolve fault };

    fn from(fault: ResolveFault) -> Failure {
        match fault {
            ResolveFault::Name(place) => Failure::Refused(unknown_at(place)),
            ResolveFault::Memory => Failure::Memory,
        }
    }
}

// Fails if the bytes are refused, an ACE needs a name that no ACE can have, or memory runs out.
#[tactic(auto, using(crate::proofs::Resolutions::object_failure, crate::proofs::Resolutions::list_failure))]
fn named(
    alloc: Global,
    acl: &[u8],
    object: &Object<'_>,
    profile: Profile,
) -> Result<Vec<u8>, Failure>
    ensures ok { IfOk result (λ bytes. MakesResolved (profile_of profile) acl.now
        (owner_of object.now) (owning_group_of object.now) bytes.items) }
    ensures err { IfErr result
        (IsObjectFailure (profile_of profile) acl.now (owner_of object.now)
        (owning_group_of object.now)) }
{
    let view = AclView::parse_whole_with(acl, profile)?;
    let list = resolved(alloc, &view, object)?;
    Ok(list.to_bytes(alloc)?)
}
