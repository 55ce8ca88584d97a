//! Rights of masks, and of ACEs.
ghost use Rattle.std.specs.Prelude.{◌&&◌, ◌<◌, ◌^◌, ◌≡◌, ◌≤◌};
ghost use Rattle.acl_normal.specs.Common.{ace, all_rights, bit_count, bit_or, everyone, has_bit, IfNone, IfSome, principal_eq, principal_of, true, ℕ};
ghost use Rattle.acl_normal.specs.internal.NextRight.{IsNextRight, LacksFrom};

use crate::ace_principal::whom;
use acl_nfs4::AceRef;
use acl_perm::Mask;
use acl_perm::internal::Bit;

/// Returns the mask if its ACE names everyone, and otherwise no rights.
#[inline(always)]
pub(crate) fn of_everyone(item: AceRef<'_>, mask: Mask) -> Mask
    ensures { (b : ℕ) → has_bit result.bits b
        ≡ (has_bit mask.bits b && principal_eq (principal_of (ace item.entry)) everyone) }
{
    if whom(&item).is_everyone() {
        mask
    } else {
        Mask::NONE
    }
}

/// Returns the lowest right of the mask whose bit is not below a number.
pub(crate) fn next_right(mask: Mask, from: usize) -> Option<Bit>
    requires { from ≤ bit_count }
    ensures some { IfSome result (λ right. IsNextRight mask.bits from right.bit) }
    ensures none { IfNone result (LacksFrom mask.bits from bit_count) }
{
    let bit = from + (mask.bits >> from).trailing_zeros() as usize;
    if bit < Bit::COUNT {
        Some(Bit { bit })
    } else {
        None
    }
}

/// Returns the mask of one right. The mask is empty for a bit that is no right.
pub(crate) fn alone(right: Bit) -> Mask
    ensures { has_bit all_rights right.bit ≡ true → result.bits ≡ 2 ^ right.bit }
{
    Mask {
        bits: Mask::ALL.bits & (1 << right.bit),
    }
}

/// Adds a bit to a set of bits that is given as a number.
pub(crate) fn with(bits: u32, right: Bit) -> u32
    ensures { result ≡ bit_or bits (2 ^ right.bit) }
{
    bits | (1 << right.bit)
}
