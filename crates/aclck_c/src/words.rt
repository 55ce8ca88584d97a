//! Names of rights and of reasons.
ghost use Rattle.acl_nfs4.specs.Rights.{SpellsMask};
ghost use Rattle.aclck_c.specs.Status as status;
ghost use Rattle.aclck_c.specs.Words.{NamesMask, reason_name};
ghost use Rattle.std.specs.Prelude.{◌≡◌, ◌∷◌};
ghost use Rattle.aclck_c.specs.Common.{IsSome, Some, JudgesArguments, WritesBytes, WritesValue};

use crate::out::put;
use crate::reason::reason_name;
use crate::status::Status;
use acl_nfs4::read_mask;

/// Reads the rights that a text names: names with `|` between them, or `-` for none. Returns 0 if they are in `mask`,
/// and 3 if the text names no mask. It takes no memory.
#[unsafe(no_mangle)]
pub extern "C" fn aclck_read_mask(text: &[u8], mask: &mut u32) -> u32
    ensures named { WritesValue (SpellsMask text.now) mask.old mask.new result }
    ensures arguments { JudgesArguments (NamesMask text.now) result }
    ensures known { status.IsOneOf (status.bad_argument ∷ status.only_done) result }
{
    match read_mask(text) {
        Some(found) => {
            *mask = found.bits();
            Status::Done.number()
        }
        None => Status::BadArgument.number(),
    }
}

/// Writes the name of a reason, as the program prints it. Returns 0 if it is at the front of `out`; 3 if no reason has
/// this number; 5 if `out` is too short. At 0 and 5 `needed` is the number of bytes. It takes no memory.
#[unsafe(no_mangle)]
pub extern "C" fn aclck_reason_text(reason: u32, out: &mut [u8], needed: &mut usize) -> u32
    ensures name { WritesBytes (λ name. reason_name reason ≡ Some name)
        out.old out.new needed.old needed.new result }
    ensures arguments { JudgesArguments (IsSome (reason_name reason)) result }
    ensures known { status.IsOneOf (status.bad_argument ∷ status.done_or_short) result }
{
    match reason_name(reason) {
        Some(name) => put(name, out, needed).number(),
        None => Status::BadArgument.number(),
    }
}
