//! Reads an ACE at a place of a value.
ghost use Rattle.std.specs.Prelude.{◌≡◌, ◌+◌, ◌<◌, ◌≤◌, IfSome, IsNone, OnOk, Some, length, if◌then◌else◌, ◌==◌};
ghost use Rattle.acl_perm.specs.declared.kind.Kind.TheVariants.{Allow, Deny};
ghost use Rattle.acl_nt.specs.AceAt.{nt_ace_at, ace_conditions, ace_head_conditions, ace_sid_conditions, ace_size, are_flags, generic_part, generic_rights, has_objects, is_expanded, is_literal, objects_size, sid_place};
ghost use Rattle.acl_nt.specs.Conditions.{ReadsUnder, first_unmet};
ghost use Rattle.acl_nt.specs.Descriptor.{nt_ace};
ghost use Rattle.acl_nt.specs.Numbers.{byte_at, place_limit};
ghost use Rattle.acl_nt.specs.SidAt.{sid_conditions};
ghost use Rattle.acl_nt.specs.internal.Parts.{IsRoomy};

use crate::ace::NtAce;
use crate::fault::{NtFault, NtReason};
use crate::numbers::{half, word};
use crate::role::Role;
use crate::sid_reader::read_sid;
use acl_perm::Kind;

/// Returns the ACE at a place of an ACL that ends at another place. The kind of an ACE that neither allows nor denies
/// has no meaning.
pub(crate) fn read_ace(role: Role, bytes: &[u8], at: usize, end: usize) -> Result<NtAce, NtFault>
    requires begins { at ≤ end }
    requires inside { end ≤ length bytes.now }
    requires small { end + 100 < place_limit }
    ensures exact { ReadsUnder nt_ace result (ace_conditions role bytes.now end at) (nt_ace_at bytes.now at) }
    ensures roomy { OnOk result (IsRoomy bytes.now at end) }
{
    match head_fault(role, bytes, at, end) {
        Some(fault) => Err(fault),
        None => read_after_head(role, bytes, at),
    }
}

// Returns the ACE at a place, with its SID.
#[tactic(auto, unfolding(crate::specs::AceAt::nt_ace_at))]
fn read_after_head(role: Role, bytes: &[u8], at: usize) -> Result<NtAce, NtFault>
    requires whole { at + 16 ≤ length bytes.now }
    requires inside { at + ace_size bytes.now at ≤ length bytes.now }
    requires small { at + 100 < place_limit }
    ensures { ReadsUnder nt_ace result (ace_sid_conditions role bytes.now at) (nt_ace_at bytes.now at) }
{
    let sid = read_sid(
        bytes,
        sid_place(bytes, at),
        at + half(bytes, at + 2) as usize,
    )?;
    let ace = NtAce {
        kind: kind_of(bytes[at]),
        flags: bytes[at + 1],
        mask: word(bytes, at + 4),
        sid,
    };
    if !role.keeps_owner_ace(bytes[at], &ace) {
        return Err(NtFault::new(at, NtReason::AceType));
    }
    Ok(ace)
}

fn kind_of(number: u8) -> Kind
    ensures { result ≡ (if number == 0 then Allow else Deny) }
{
    if number == 0 { Kind::Allow } else { Kind::Deny }
}

// Returns what is wrong with the fields of an ACE before its SID.
#[tactic(auto, unfolding(crate::specs::AceAt::ace_head_conditions))]
fn head_fault(role: Role, bytes: &[u8], at: usize, end: usize) -> Option<NtFault>
    requires begins { at ≤ end }
    requires inside { end ≤ length bytes.now }
    requires small { end + 100 < place_limit }
    ensures exact { result ≡ first_unmet (ace_head_conditions role bytes.now end at) }
    ensures roomy { IsNone result → IsRoomy bytes.now at end }
{
    if end - at < 8 {
        return Some(NtFault::new(at, NtReason::Truncated));
    }
    let (number, flags) = (bytes[at], bytes[at + 1]);
    if !role.takes_type(number) {
        return Some(NtFault::new(at, NtReason::AceType));
    }
    if !are_flags(role.decides(number), flags) {
        return Some(NtFault::new(at + 1, NtReason::AceFlags));
    }
    let size = half(bytes, at + 2) as usize;
    if !(size >= 16 && size % 4 == 0 && size <= end - at) {
        return Some(NtFault::new(at + 2, NtReason::AceSize));
    }
    if !is_literal(role.decides(number), flags, word(bytes, at + 4)) {
        return Some(NtFault::new(at + 4, NtReason::Generic));
    }
    None
}

fn are_flags(is_deciding: bool, flags: u8) -> bool
    ensures { result ≡ are_flags is_deciding flags }
{
    !(is_deciding && flags & 0x20 != 0)
}

fn is_literal(is_deciding: bool, flags: u8, mask: u32) -> bool
    ensures { result ≡ is_literal is_deciding flags mask }
{
    !(is_deciding && flags & 8 == 0) || is_expanded(mask)
}

fn is_expanded(mask: u32) -> bool
    ensures { result ≡ is_expanded mask }
{
    let rights = generic_rights(mask);
    rights & mask == rights
}

fn generic_rights(mask: u32) -> u32
    ensures { result ≡ generic_rights mask }
{
    generic_part(mask, 0x1000_0000, 0x1f_01ff)
        | (generic_part(mask, 0x2000_0000, 0x12_00a0)
            | (generic_part(mask, 0x4000_0000, 0x12_0116)
                | generic_part(mask, 0x8000_0000, 0x12_0089)))
}

fn generic_part(mask: u32, generic: u32, rights: u32) -> u32
    ensures { result ≡ generic_part mask generic rights }
{
    if mask & generic != 0 { rights } else { 0 }
}

// Returns the place of the SID of an ACE.
#[tactic(auto, unfolding(crate::specs::AceAt::sid_place))]
fn sid_place(bytes: &[u8], at: usize) -> usize
    requires whole { at + 16 ≤ length bytes.now }
    requires small { at < place_limit }
    ensures place { result ≡ sid_place bytes.now at }
    ensures near { result ≤ at + 44 }
{
    if has_objects(bytes[at]) {
        at + 8 + objects_size(bytes[at + 8])
    } else {
        at + 8
    }
}

fn has_objects(number: u8) -> bool
    ensures { result ≡ has_objects number }
{
    matches!(number, 5..=8 | 11 | 12 | 15 | 16)
}

fn objects_size(flags: u8) -> usize
    ensures size { result ≡ objects_size flags }
    ensures small { result ≤ 36 }
{
    let first = if flags & 1 != 0 { 16 } else { 0 };
    let second = if flags & 2 != 0 { 16 } else { 0 };
    4 + first + second
}
