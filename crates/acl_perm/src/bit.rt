//! The number of a bit of masks, whether it is a right or not.
ghost use Rattle.std.specs.Prelude.{◌≡◌, ◌<◌};
ghost use Rattle.acl_perm.specs.Bits.{has_bit};

use crate::mask::Mask;
use crate::right::Right;

/// The number of a bit of masks, below 21. A loop over all bits makes `Bit { bit }` from each number below `Bit::COUNT`
/// and needs no test: the bits 11 to 15, which are no rights, are in no mask.
#[derive(Clone, Copy, Debug, PartialEq, Eq, PartialOrd, Ord, Hash)]
pub struct Bit {
    pub bit: usize,
    ghost within: { bit < 21 },
}

impl Bit {
    /// The number of bits, one more than the greatest number of a bit.
    pub const COUNT: usize = 21;

    /// Returns whether the bit of this number is set in the mask.
    pub fn is_in(self, mask: Mask) -> bool
        ensures { result ≡ has_bit mask.bits self.bit }
    {
        (mask.bits >> self.bit) & 1 == 1
    }
}

impl From<Right> for Bit {
    ghost from_gives = { λ right bit. bit.bit ≡ right.bit };

    #[tactic(auto, using(crate::proofs::Sets::right_below))]
    fn from(right: Right) -> Bit {
        Bit { bit: right.bit }
    }
}
