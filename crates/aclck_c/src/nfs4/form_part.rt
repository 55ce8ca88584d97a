//! Parts of values of forms: the list without the ACEs that access does not read.
ghost use Rattle.aclck_c.specs.FormParts.{IsRefusedFormPartIn, ReadsFormPart, ReadsFormPartIn, WritesBoth, left_out_number, raw_left_out};
ghost use Rattle.aclck_c.specs.FormValues.{form_of_number};
ghost use Rattle.aclck_c.specs.Status as status;
ghost use Rattle.aclck_c.specs.internal.FormParts.{IsFormPartFailure, PutsBothIfRoom};
ghost use Rattle.aclck_c.specs.internal.Numbers.{number_of_reason, number_of_status};
ghost use Rattle.std.specs.Prelude.{◌≡◌};
ghost use Rattle.aclck_c.specs.Common.{⊤, IfErr, IfOk, IsSome, JudgesInput, map};

use crate::failure::Failure;
use crate::nfs4::forms::form_of_number;
use crate::out::fill;
use crate::reason::Reason;
use crate::refusal::Refusal;
use crate::status::Status;
use acl_forms::{Form, LeftOut, LeftOutReason, read_part};
use std::alloc::{AllocError, Global};

/// `struct aclck_left_out`: the number of an ACE that is left out, from 0, the place of its first byte in the value,
/// and the number in `enum aclck_reason` of the reason.
#[repr(C)]
#[derive(Clone, Copy, Debug)]
pub struct RawLeftOut {
    pub place: u64,
    pub offset: u64,
    pub reason: u32,
}

/// `struct aclck_list_part`: the number of bytes of a list, the number of the ACEs that are left out, and the flags of
/// the list.
#[repr(C)]
#[derive(Clone, Copy, Debug)]
pub struct RawPart {
    pub needed: u64,
    pub left_out: u64,
    pub flags: u32,
}

/// Writes the bytes of the part of a list that access can read, of a value of a form, and the ACEs that are left out.
/// `form` is a number of `enum aclck_form`. Returns 0 if the bytes are at the front of `out`, and the ACEs at the front
/// of `left`; 2 if the value is refused, with the reason and the place of a byte in `fault`; 3 if no form has the
/// number; 4 if memory ran out; 5 if `out` or `left` is too short. At 0 and 5 `part` has their numbers and the flags of
/// the list; a text has none.
#[unsafe(no_mangle)]
pub extern "C" fn aclck_read_part(
    alloc: Global,
    value: &[u8],
    form: u32,
    part: &mut RawPart,
    out: &mut [u8],
    left: &mut [RawLeftOut],
    fault: &mut Refusal,
) -> u32
    ensures part { WritesBoth (ReadsFormPartIn form value.now part.new.flags)
        out.old out.new left.old left.new part.new.needed part.new.left_out result }
    ensures kept { status.IfUnanswered result (part.new ≡ part.old) }
    ensures input { JudgesInput (IsRefusedFormPartIn form value.now) ⊤
        (IsSome (form_of_number form)) status.done_or_short fault.old fault.new result }
{
    let Some(form) = form_of_number(form) else {
        return Status::BadArgument.number();
    };
    let status = match part_in(alloc, value, form) {
        Ok(made) => {
            *part = RawPart {
                needed: made.bytes.len() as u64,
                left_out: made.left_out.len() as u64,
                flags: made.flags,
            };
            put_both(&made.bytes, out, &made.left_out, left)
        }
        Err(failure) => failure.report(fault),
    };
    status.number()
}

#[derive(Drop)]
struct MadePart {
    flags: u32,
    bytes: Vec<u8>,
    left_out: Vec<RawLeftOut>,
}

// Returns the part of a value. Fails if the value is refused or memory runs out.
#[tactic(auto, using(crate::proofs::FormParts::part_failure))]
fn part_in(alloc: Global, value: &[u8], form: Form) -> Result<MadePart, Failure>
    ensures ok { IfOk result (λ part.
        ReadsFormPart form value.now part.flags part.bytes.items part.left_out.items) }
    ensures err { IfErr result (IsFormPartFailure form value.now) }
{
    let part = read_part(alloc, form, value)?;
    Ok(MadePart {
        flags: part.flags.bits(),
        bytes: part.list.to_bytes(alloc)?,
        left_out: numbers_of(alloc, &part.left_out)?,
    })
}

// Returns the ACEs that are left out, by numbers.
fn numbers_of(alloc: Global, left_out: &[LeftOut]) -> Result<Vec<RawLeftOut>, AllocError>
    ensures { IfOk result (λ raws. raws.items ≡ map raw_left_out left_out.now) }
{
    let mut raws = Vec::with_capacity(alloc, left_out.len())?;
    for ace in left_out {
        raws.push(RawLeftOut {
            place: ace.place as u64,
            offset: ace.offset,
            reason: left_out_reason(ace.reason).number(),
        })?;
    }
    Ok(raws)
}

fn left_out_reason(reason: LeftOutReason) -> Reason
    ensures { number_of_reason result ≡ left_out_number reason }
{
    match reason {
        LeftOutReason::AuditOrAlarm => Reason::AuditOrAlarm,
        LeftOutReason::SpecialWho => Reason::SpecialWho,
    }
}

// Puts bytes and items at the fronts of their buffers, or nothing if one of the two has no room. Returns the status.
fn put_both<T: Copy, U: Copy>(bytes: &[T], out: &mut [T], items: &[U], room: &mut [U]) -> Status
    ensures { PutsBothIfRoom bytes.now out.old out.new items.now room.old room.new
        (number_of_status result) }
{
    if bytes.len() > out.len() || items.len() > room.len() {
        return Status::Short;
    }
    fill(items, room);
    fill(bytes, out);
    Status::Done
}
