//! Reads what is before the descriptor in a value.
ghost use Rattle.std.specs.Prelude.{◌≡◌, ◌+◌, ◌<◌, ◌≤◌, IfOk, IsNone, length, position};
ghost use Rattle.acl_nt.specs.Conditions.{ReadsUnder, first_unmet};
ghost use Rattle.acl_nt.specs.Ntacl.{base_of, description_conditions, description_end, description_room, ends_description, fixed_size, frame_conditions, head_conditions, ntacl_base, ntacl_conditions, tail_conditions, time_place, version};

use crate::fault::{NtFault, NtReason};
use crate::form::NtForm;
use crate::numbers::{half, word};

/// Returns the place of the descriptor.
#[tactic(auto, unfolding(crate::specs::Ntacl::frame_conditions, crate::specs::Ntacl::base_of))]
pub(crate) fn base(form: NtForm, bytes: &[u8]) -> Result<usize, NtFault>
    ensures exact { ReadsUnder (λ x. x) result (frame_conditions form bytes.now) (base_of form bytes.now) }
    ensures small { IfOk result (λ base. base < 1000) }
{
    match form {
        NtForm::Descriptor => Ok(0),
        NtForm::Ntacl => ntacl_base(bytes),
    }
}

// Returns the place of the descriptor in the attribute `security.NTACL`.
fn ntacl_base(bytes: &[u8]) -> Result<usize, NtFault>
    ensures exact { ReadsUnder (λ x. x) result (ntacl_conditions bytes.now) (ntacl_base bytes.now) }
    ensures small { IfOk result (λ base. base < 1000) }
{
    match head_fault(bytes) {
        Some(fault) => Err(fault),
        None => base_after_head(bytes),
    }
}

// Returns the place of the descriptor after the first fields.
fn base_after_head(bytes: &[u8]) -> Result<usize, NtFault>
    requires whole { fixed_size (version bytes.now) ≤ length bytes.now }
    requires some { 8 ≤ length bytes.now }
    ensures exact { ReadsUnder (λ x. x) result (tail_conditions bytes.now) (ntacl_base bytes.now) }
    ensures small { IfOk result (λ base. base < 1000) }
{
    let version = half(bytes, 0);
    if version != 4 {
        return Ok(fixed_size(version));
    }
    match description_fault(bytes) {
        Some(fault) => Err(fault),
        None => Ok(time_place(bytes) + 72),
    }
}

// Returns what is wrong with the first fields.
#[tactic(auto, unfolding(crate::specs::Ntacl::head_conditions))]
fn head_fault(bytes: &[u8]) -> Option<NtFault>
    ensures exact { result ≡ first_unmet (head_conditions bytes.now) }
    ensures whole { IsNone result → fixed_size (version bytes.now) ≤ length bytes.now }
    ensures some { IsNone result → 8 ≤ length bytes.now }
{
    if bytes.len() < 8 {
        return Some(NtFault::new(0, NtReason::Truncated));
    }
    let version = half(bytes, 0);
    if !(1 <= version && version <= 4) {
        return Some(NtFault::new(0, NtReason::Version));
    }
    if half(bytes, 2) != version {
        return Some(NtFault::new(2, NtReason::Version));
    }
    if word(bytes, 4) == 0 {
        return Some(NtFault::new(4, NtReason::Pointer));
    }
    if bytes.len() < fixed_size(version) {
        return Some(NtFault::new(8, NtReason::Truncated));
    }
    if !(version == 1 || word(bytes, 8) != 0) {
        return Some(NtFault::new(8, NtReason::Pointer));
    }
    None
}

fn fixed_size(version: u16) -> usize
    ensures size { result ≡ fixed_size version }
    ensures small { result ≤ 80 }
{
    match version {
        1 => 8,
        2 => 28,
        3 => 80,
        _ => 78,
    }
}

// Returns what is wrong with the description and what is after it.
#[tactic(auto, unfolding(crate::specs::Ntacl::description_conditions))]
fn description_fault(bytes: &[u8]) -> Option<NtFault>
    requires { 78 ≤ length bytes.now }
    ensures { result ≡ first_unmet (description_conditions bytes.now) }
{
    let end = description_end(bytes);
    if bytes.len() <= end {
        return Some(NtFault::new(end, NtReason::Truncated));
    }
    if bytes[end] != 0 {
        return Some(NtFault::new(end, NtReason::Description));
    }
    let time = time_place(bytes);
    if bytes.len() < time + 72 {
        return Some(NtFault::new(time, NtReason::Truncated));
    }
    None
}

// Returns the place after the description and its padding.
fn time_place(bytes: &[u8]) -> usize
    requires { 78 ≤ length bytes.now }
    ensures place { result ≡ time_place bytes.now }
    ensures small { result ≤ 340 }
{
    4 * ((description_end(bytes) + 4) / 4)
}

// Returns the place of the first byte after the description.
#[tactic(auto, unfolding(crate::specs::Ntacl::description_end))]
fn description_end(bytes: &[u8]) -> usize
    requires { 78 ≤ length bytes.now }
    ensures place { result ≡ description_end bytes.now }
    ensures small { result ≤ 333 }
{
    let room = description_room(bytes);
    78 + first_end(room).unwrap_or(room.len())
}

fn first_end(bytes: &[u8]) -> Option<usize>
    ensures { result ≡ position ends_description bytes.now }
{
    bytes.iter().position(|b| ends_description(*b))
}

fn description_room(bytes: &[u8]) -> &[u8]
    requires { 78 ≤ length bytes.now }
    ensures room { result.now ≡ description_room bytes.now }
    ensures small { length result.now ≤ 255 }
{
    let size = (bytes.len() - 78).min(255);
    &bytes[78..78 + size]
}

fn ends_description(byte: u8) -> bool
    ensures { result ≡ ends_description byte }
{
    byte < 0x20 || 0x7e < byte
}
