//! The mode of a list.
ghost use Rattle.aclck_c.specs.Mode.{HasMode};
ghost use Rattle.aclck_c.specs.Common.{IfErr, IfOk, profile_of, LooksAtList, profile_from, GivesAnswer, IsViewFailure, IsProfileOption};

use crate::failure::Failure;
use crate::options::profile_from;
use crate::out::answer_value;
use crate::refusal::Refusal;
use crate::status::Status;
use acl_eval::mode_of;
use acl_nfs4::AclView;
use acl_perm::Profile;

/// Answers what the mode of the list that the bytes spell is (RFC 8881, section 6.3.2): it is in `mode`, which is 0 if
/// the call fails. Returns 0 if it is answered; 2 if the bytes are refused, with the reason in `fault`; 3 if an option
/// has no meaning. It takes no memory.
#[unsafe(no_mangle)]
pub extern "C" fn aclck_mode(acl: &[u8], options: u32, mode: &mut u32, fault: &mut Refusal) -> u32
    ensures answer { GivesAnswer (HasMode (profile_from options) acl.now) 0 mode.new result }
    ensures input { LooksAtList (profile_from options) acl.now
        (IsProfileOption options) fault.old fault.new result }
{
    *mode = 0;
    let Some(profile) = profile_from(options) else {
        return Status::BadArgument.number();
    };
    answer_value(mode_in(acl, profile), mode, fault)
}

// Fails if the bytes are refused.
fn mode_in(acl: &[u8], profile: Profile) -> Result<u32, Failure>
    ensures ok { IfOk result (HasMode (profile_of profile) acl.now) }
    ensures err { IfErr result (IsViewFailure (profile_of profile) acl.now) }
{
    let view = AclView::parse_whole_with(acl, profile)?;
    Ok(mode_of(view.aces()).bits() as u32)
}
