//! Reads an ACL at a place of a value.
ghost use Rattle.std.specs.Prelude.{◌≡◌, ◌+◌, ◌<◌, ◌≤◌, ◌^◌, IsNone, OnOk, length};
ghost use Rattle.acl_nt.specs.AceAt.{other_at};
ghost use Rattle.acl_nt.specs.AclAt.{ace_places, nt_aces_at, aces_conditions, acl_conditions, acl_header_conditions, places};
ghost use Rattle.acl_nt.specs.Conditions.{ReadsUnder, first_unmet};
ghost use Rattle.acl_nt.specs.Descriptor.{nt_ace};
ghost use Rattle.acl_nt.specs.Numbers.{place_limit};
ghost use Rattle.acl_nt.specs.internal.Parts.{FitsAcl, aces, aces_added};

use crate::ace::{NtAce, OtherAce};
use crate::ace_reader::read_ace;
use crate::fault::{NtFault, NtReason};
use crate::numbers::half;
use crate::role::Role;
use std::alloc::{AllocError, Global};

// The greatest number of ACEs of an ACL.
const MOST_ACES: u16 = 2000;

/// The ACEs of an ACL that decide, and the others, each in order.
#[derive(Drop)]
pub(crate) struct Aces {
    pub deciding: Vec<NtAce>,
    pub others: Vec<OtherAce>,
}

/// Returns the ACEs of the ACL at a place.
pub(crate) fn read_acl(alloc: Global, role: Role, bytes: &[u8], at: usize) -> Result<Aces, NtFault>
    requires small { at < 2 ^ 32 }
    ensures { ReadsUnder aces result (acl_conditions role bytes.now at)
        (nt_aces_at role bytes.now (ace_places bytes.now at)) }
{
    match header_fault(bytes, at) {
        Some(fault) => Err(fault),
        None => {
            let end = at + half(bytes, at + 2) as usize;
            read_aces(alloc, role, bytes, at + 8, end, half(bytes, at + 4))
        }
    }
}

// Returns this many ACEs, the first of which is at this place.
fn read_aces(
    alloc: Global,
    role: Role,
    bytes: &[u8],
    from: usize,
    end: usize,
    count: u16,
) -> Result<Aces, NtFault>
    requires begins { from ≤ end }
    requires inside { end ≤ length bytes.now }
    requires small { end + 100 < place_limit }
    ensures { ReadsUnder aces result
        (aces_conditions role bytes.now end (places count bytes.now from))
        (nt_aces_at role bytes.now (places count bytes.now from)) }
{
    let mut list = Aces {
        deciding: Vec::new(alloc.clone()?),
        others: Vec::new(alloc),
    };
    let mut at = from;
    for _ in 0..count {
        let ace = read_ace(role, bytes, at, end)?;
        push(&mut list, role, ace, other_at(bytes, at))?;
        at += half(bytes, at + 2) as usize;
    }
    Ok(list)
}

// Adds an ACE to those that decide or to the others.
fn push(list: &mut Aces, role: Role, ace: NtAce, other: OtherAce) -> Result<(), AllocError>
    ensures { OnOk result (aces list.new ≡ aces_added role (aces list.old) (nt_ace ace) other) }
{
    if role.decides(other.type_number) {
        list.deciding.push(ace)?;
    } else {
        list.others.push(other)?;
    }
    Ok(())
}

fn other_at(bytes: &[u8], at: usize) -> OtherAce
    requires { at < length bytes.now }
    ensures { result ≡ other_at bytes.now at }
{
    OtherAce {
        offset: at as u64,
        type_number: bytes[at],
    }
}

// Returns what is wrong with the header of an ACL.
#[tactic(auto, unfolding(crate::specs::AclAt::acl_header_conditions))]
fn header_fault(bytes: &[u8], at: usize) -> Option<NtFault>
    requires small { at < 2 ^ 32 }
    ensures exact { result ≡ first_unmet (acl_header_conditions bytes.now at) }
    ensures fits { IsNone result → FitsAcl bytes.now at }
{
    if bytes.len() < at + 8 {
        return Some(NtFault::new(at, NtReason::Truncated));
    }
    if !(bytes[at] == 2 || bytes[at] == 4) {
        return Some(NtFault::new(at, NtReason::AclRevision));
    }
    if bytes[at + 1] != 0 {
        return Some(NtFault::new(at + 1, NtReason::AclSbz));
    }
    let size = half(bytes, at + 2) as usize;
    if !(size >= 8 && at + size <= bytes.len()) {
        return Some(NtFault::new(at + 2, NtReason::AclSize));
    }
    if half(bytes, at + 4) > MOST_ACES {
        return Some(NtFault::new(at + 4, NtReason::AceCount));
    }
    if half(bytes, at + 6) != 0 {
        return Some(NtFault::new(at + 6, NtReason::AclSbz));
    }
    None
}
