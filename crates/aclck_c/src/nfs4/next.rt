//! The ACEs of a list, one after the other.
ghost use Rattle.std.specs.Prelude.{◌≡◌, ◌≤◌, length};
ghost use Rattle.acl_nfs4.specs.Ace.{ace};
ghost use Rattle.aclck_c.specs.Common.{IsProfileOption, JudgesInput, profile_from};
ghost use Rattle.aclck_c.specs.Next.{IsNoAce, IsRefusedAt, ReadsNext, ShowsAce};
ghost use Rattle.aclck_c.specs.Status as status;

use crate::failure::Failure;
use crate::nfs4::ace::RawAce;
use crate::options::profile_from;
use crate::refusal::Refusal;
use crate::status::Status;
use acl_nfs4::{AceRef, ace_at};

/// Writes the ACE at `offset` of the list that the bytes spell to `ace`, and moves `offset` behind it. If no ACE is
/// left, `ace` has the kind 2 and nothing else, and `offset` stays. Offset 0 is that of the first ACE, and there all of
/// the bytes are judged. Returns 0 if it is answered; 2 if the bytes are refused, with the reason in `fault`; 3 if
/// `offset` is behind the bytes, or an option has no meaning. It takes no memory.
#[unsafe(no_mangle)]
pub extern "C" fn aclck_next<'a>(
    acl: &'a [u8],
    options: u32,
    offset: &mut usize,
    ace: &mut RawAce<'a>,
    fault: &mut Refusal,
) -> u32
    ensures answer { ReadsNext (profile_from options) acl.now
        (IsProfileOption options × (offset.old ≤ length acl.now))
        offset.old offset.new ace.old ace.new result }
    ensures input { JudgesInput (IsRefusedAt (profile_from options) acl.now offset.old) ⊥
        (IsProfileOption options × (offset.old ≤ length acl.now)) status.only_done
        fault.old fault.new result }
{
    if *offset > acl.len() {
        return Status::BadArgument.number();
    }
    let Some(profile) = profile_from(options) else {
        return Status::BadArgument.number();
    };
    let status = match ace_at(acl, *offset, profile) {
        Ok(Some(next)) => {
            *ace = raw_ace(next.ace);
            *offset = next.end;
            Status::Done
        }
        Ok(None) => {
            *ace = no_ace(acl);
            Status::Done
        }
        Err(found) => Failure::from(found).report(fault),
    };
    status.number()
}

fn raw_ace(item: AceRef<'_>) -> RawAce<'_>
    ensures { ShowsAce (ace item.entry) result }
{
    RawAce {
        kind: item.kind.number(),
        flags: item.flags.bits() as u32,
        mask: item.mask.bits(),
        who: item.who,
    }
}

// The who of no ACE has no bytes, and its pointer is that of the bytes, because C knows that pointer.
fn no_ace(acl: &[u8]) -> RawAce<'_>
    ensures { IsNoAce result }
{
    let (who, _) = acl.split_at(0);
    RawAce {
        kind: 2,
        flags: 0,
        mask: 0,
        who,
    }
}
