//! The names of the rights of a mask.
ghost use Rattle.acl_perm.specs.Bits.{IsMask};
ghost use Rattle.aclck_c.specs.Status as status;
ghost use Rattle.aclck_c.specs.Words.{rights_text};
ghost use Rattle.std.specs.Prelude.{◌≡◌, ◌∷◌};
ghost use Rattle.aclck_c.specs.Common.{JudgesArguments, WritesBytes};

use crate::out::put;
use crate::status::Status;
use acl_nfs4::internal::rights_text;
use acl_perm::Mask;

/// Writes the names of the rights of a mask, with `|` between them, or `-` for none. Returns 0 if they are at the front
/// of `out`; 3 if a bit is not a right; 5 if `out` is too short. At 0 and 5 `needed` is the number of bytes. It takes
/// no memory.
#[unsafe(no_mangle)]
pub extern "C" fn aclck_mask_text(mask: u32, out: &mut [u8], needed: &mut usize) -> u32
    ensures names { WritesBytes (λ text. text ≡ rights_text mask)
        out.old out.new needed.old needed.new result }
    ensures arguments { JudgesArguments (IsMask mask) result }
    ensures known { status.IsOneOf (status.bad_argument ∷ status.done_or_short) result }
{
    let Some(mask) = Mask::new(mask) else {
        return Status::BadArgument.number();
    };
    let text = rights_text(mask);
    put(text.as_slice(), out, needed).number()
}
