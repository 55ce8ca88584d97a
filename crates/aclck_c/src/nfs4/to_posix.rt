//! The POSIX ACL of an NFSv4 list, and what is lost with it.
ghost use Rattle.std.specs.Prelude.{◌≡◌, ◌≤◌, ◌↔◌, get_or, length};
ghost use Rattle.acl_posix.specs.Check.{ids};
ghost use Rattle.aclck_c.specs.Status as status;
ghost use Rattle.aclck_c.specs.ToPosix.{BecomesPosix, ReadsForPosix, greatest_bound, loss_numbers, loss_unknown, raw_posix_loss};
ghost use Rattle.aclck_c.specs.internal.PosixFailures.{IsPosixFailure, of_shape};
ghost use Rattle.aclck_c.specs.Common.{IfErr, IfOk, IfSome, IsSome, WritesBytes};

use crate::failure::Failure;
use crate::nfs4::ids::{RawNames, unknown_at};
use crate::out::{Made, answer_both};
use crate::posix::entries::raws_of;
use crate::posix::names::{RawName, table_of};
use crate::reason::Reason;
use crate::refusal::Refusal;
use crate::status::Status;
use acl_nfs4::AclView;
use acl_posix::{Id, RawEntry};
use acl_to_posix::{LostGrant, ShapeFault, to_posix};
use std::alloc::Global;

/// `struct aclck_posix_loss`: 1 if the ACL grants read, write and execute wherever the list does; otherwise the owner
/// and the group of an object, a user and the groups of that user, at most three, and the permission that the list
/// grants this user and the ACL denies.
#[repr(C)]
#[derive(Clone, Copy, Debug)]
pub struct RawPosixLoss {
    pub exact: u32,
    pub owner: u32,
    pub group: u32,
    pub user: u32,
    pub want: u32,
    pub ngroups: u32,
    pub first_group: u32,
    pub second_group: u32,
    pub third_group: u32,
}

const NOTHING_LOST: RawPosixLoss = RawPosixLoss {
    exact: 1,
    owner: 0,
    group: 0,
    user: 0,
    want: 0,
    ngroups: 0,
    first_group: 0,
    second_group: 0,
    third_group: 0,
};

const LOSS_UNKNOWN: RawPosixLoss = RawPosixLoss {
    exact: 0,
    ..NOTHING_LOST
};

impl From<ShapeFault> for Failure {
    ghost from_gives = { λ fault failure. failure ≡ of_shape fault };

    fn from(fault: ShapeFault) -> Failure {
        match fault {
            ShapeFault::NoId(place) => Failure::Refused(unknown_at(place)),
            ShapeFault::TooManyNames => Failure::Refused(Refusal::at(Reason::Limits, 0)),
            ShapeFault::Memory => Failure::Memory,
        }
    }
}

/// Writes the entries of the POSIX ACL of the list that the bytes spell, in canonical order (this library's own, over
/// RFC 8881, section 6.2.1, and acl(5)). The ACL grants no more than the list: read only where the list grants
/// READ_DATA, write only where it grants WRITE_DATA and APPEND_DATA, and execute only where it grants EXECUTE. The id
/// of a name is that of `names`, and otherwise the number whose decimal digits the name is. Returns 0 if the entries
/// are at the front of `out`; 2 if the bytes are refused, a user or a group has no id, or the list names more than
/// `most` users and groups, with the reason in `fault`; 3 if the names make no table or `most` is above 65535; 4 if
/// memory ran out; 5 if `out` is too short. At 0 and 5 `needed` is the number of entries, and `loss` says whether the
/// ACL grants all that the list grants, and otherwise who loses what; at every other status all of `loss` is 0.
#[unsafe(no_mangle)]
pub extern "C" fn aclck_to_posix(
    alloc: Global,
    acl: &[u8],
    names: &RawNames<'_>,
    most: u32,
    out: &mut [RawEntry],
    needed: &mut usize,
    loss: &mut RawPosixLoss,
    fault: &mut Refusal,
) -> u32
    ensures entries { WritesBytes (BecomesPosix acl.now names.now.names.now most loss.new)
        out.old out.new needed.old needed.new result }
    ensures loss { status.IfUnanswered result (loss.new ≡ loss_unknown) }
    ensures input { ReadsForPosix acl.now names.now.names.now most fault.old fault.new result }
{
    *loss = LOSS_UNKNOWN;
    let Some(most) = bound_from(most) else {
        return Status::BadArgument.number();
    };
    let made = posix_of(alloc, acl, names.names, most);
    answer_both(made, loss, out, needed, fault)
}

// Returns the bound on the users and groups that a list names, or `None` if the number is above the greatest bound.
fn bound_from(number: u32) -> Option<u16>
    ensures known { IsSome result ↔ (number ≤ greatest_bound) }
    ensures value { IfSome result (λ most. most ≡ number) }
{
    u16::try_from(number).ok()
}

// Returns what is lost with the ACL of a list, and the entries of the ACL. Fails if the names make no table, the bytes
// are refused, the list has no ACL, or memory runs out.
#[tactic(auto, using(crate::proofs::PosixFailures::names_failure, crate::proofs::PosixFailures::list_failure, crate::proofs::PosixFailures::shape_failure))]
fn posix_of(
    alloc: Global,
    acl: &[u8],
    names: &[RawName<'_>],
    most: u16,
) -> Result<Made<RawPosixLoss, RawEntry>, Failure>
    ensures ok { IfOk result (λ made.
        BecomesPosix acl.now names.now most made.value made.items.items) }
    ensures err { IfErr result (IsPosixFailure acl.now names.now most) }
{
    let table = table_of(alloc, names)?;
    let list = AclView::parse_whole(acl)?;
    let made = to_posix(alloc, &list, &table, most)?;
    Ok(Made {
        value: loss_of(&made.lost),
        items: raws_of(alloc, &made.acl)?,
    })
}

fn loss_of(lost: &Option<LostGrant>) -> RawPosixLoss
    requires few { IfSome lost.now (λ found. length found.groups.items ≤ 3) }
    ensures { result ≡ loss_numbers lost.now }
{
    match lost {
        Some(lost) => numbers_of(lost),
        None => NOTHING_LOST,
    }
}

fn numbers_of(lost: &LostGrant) -> RawPosixLoss
    requires few { length lost.now.groups.items ≤ 3 }
    ensures { result ≡ raw_posix_loss lost.now }
{
    let groups = lost.groups.as_slice();
    RawPosixLoss {
        exact: 0,
        owner: lost.owner.value,
        group: lost.group.value,
        user: lost.user.value,
        want: u32::from(lost.perm.bits),
        ngroups: groups.len() as u32,
        first_group: id_at(groups, 0),
        second_group: id_at(groups, 1),
        third_group: id_at(groups, 2),
    }
}

// Returns the id at a place, or 0 if there is none.
fn id_at(groups: &[Id], place: usize) -> u32
    ensures { result ≡ get_or (ids groups.now) place 0 }
{
    match groups.get(place) {
        Some(id) => id.value,
        None => 0,
    }
}
