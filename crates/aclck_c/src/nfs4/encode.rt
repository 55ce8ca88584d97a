//! The bytes of a text.
ghost use Rattle.acl_nfs4.specs.Programs.{Encodes};
ghost use Rattle.aclck_c.specs.Encode.{IsRefusedText, ace_text_refusal};
ghost use Rattle.aclck_c.specs.Status as status;
ghost use Rattle.aclck_c.specs.internal.Failures.{IsTextFailure};
ghost use Rattle.std.specs.Prelude.{◌≡◌};
ghost use Rattle.aclck_c.specs.Common.{⊤, IfErr, IfOk, profile_of, JudgesInput, profile_from, WritesBytes, IsProfileOption};

use crate::failure::Failure;
use crate::options::profile_from;
use crate::out::answer;
use crate::reason::Reason;
use crate::refusal::Refusal;
use crate::status::Status;
use acl_nfs4::{AceTextFault, parse_text_with};
use acl_perm::Profile;
use std::alloc::Global;

/// Writes the bytes that spell the list of a text. Returns 0 if they are at the front of `out`; 2 if the text is
/// refused, with the reason in `fault`; 3 if an option has no meaning; 4 if memory ran out; 5 if `out` is too short. At
/// 0 and 5 `needed` is the number of bytes.
#[unsafe(no_mangle)]
pub extern "C" fn aclck_encode(
    alloc: Global,
    text: &[u8],
    options: u32,
    out: &mut [u8],
    needed: &mut usize,
    fault: &mut Refusal,
) -> u32
    ensures bytes { WritesBytes (Encodes (profile_from options) text.now)
        out.old out.new needed.old needed.new result }
    ensures input { JudgesInput (IsRefusedText (profile_from options) text.now) ⊤
        (IsProfileOption options) status.done_or_short fault.old fault.new result }
{
    let Some(profile) = profile_from(options) else {
        return Status::BadArgument.number();
    };
    answer(bytes_of(alloc, text, profile), out, needed, fault)
}

// Fails if the text is refused or memory runs out.
fn bytes_of(alloc: Global, text: &[u8], profile: Profile) -> Result<Vec<u8>, Failure>
    ensures ok { IfOk result (λ bytes. Encodes (profile_of profile) text.now bytes.items) }
    ensures err { IfErr result (IsTextFailure (profile_of profile) text.now) }
{
    match parse_text_with(alloc, text, profile) {
        Ok(list) => Ok(list.to_bytes(alloc)?),
        Err(fault) => Err(Failure::of_refusal(ace_text_refusal(fault))),
    }
}

// Returns the fault of a text by its numbers for C, or `None` if memory ran out.
fn ace_text_refusal(fault: AceTextFault) -> Option<Refusal>
    ensures { result ≡ ace_text_refusal fault }
{
    let (reason, line, column) = match fault {
        AceTextFault::TooManyAces { line, column } => (Reason::TooManyAces, line, column),
        AceTextFault::AceType { line, column } => (Reason::AceType, line, column),
        AceTextFault::TooHeavy { line, column } => (Reason::TooHeavy, line, column),
        AceTextFault::WhoLength { line, column } => (Reason::WhoLength, line, column),
        AceTextFault::WhoUtf8 { line, column } => (Reason::WhoUtf8, line, column),
        AceTextFault::WhoControl { line, column } => (Reason::WhoControl, line, column),
        AceTextFault::SpecialWho { line, column } => (Reason::SpecialWho, line, column),
        AceTextFault::Fields { line, column } => (Reason::Fields, line, column),
        AceTextFault::Flag { line, column } => (Reason::Flag, line, column),
        AceTextFault::Mask { line, column } => (Reason::Mask, line, column),
        AceTextFault::Memory => return None,
    };
    Some(Refusal::at_place(reason, line, column))
}
