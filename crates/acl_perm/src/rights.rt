//! The rights of a mask, one after the other.
ghost use Rattle.std.specs.Prelude.{◌≡◌, ◌^◌};
ghost use Rattle.acl_perm.specs.Bits.{rights_of};

use crate::bit::Bit;
use crate::mask::Mask;
use crate::right::Right;
use std::marker::Model;

/// The rights of a mask in ascending order of their bits.
#[derive(Clone, Debug, Drop)]
pub struct Rights {
    mask: Mask,
    // The iterator has given all bits below this one.
    from: usize,
}

impl Model for Rights {
    ghost use Rattle.std.specs.Prelude.{ℕ, List, ◌≤◌};
    ghost use Rattle.acl_perm.specs.internal.RightsLeft.{rights_from};

    ghost Value = { List ℕ };

    ghost view = { λ s. rights_from s.mask.bits s.from };

    ghost invariant = { λ s. s.from ≤ 21 };
}

impl Iterator for Rights {
    ghost use Rattle.std.specs.Iterator.{YieldsFirstBy, item_count};

    type Item = Right;

    ghost next_gives = { YieldsFirstBy (λ right. right.bit) (λ rest. rest) };

    ghost remaining = { item_count (λ rest. rest) };

    #[tactic(auto, using(crate::proofs::RightsLemmas::rights_left))]
    fn next(&mut self) -> Option<Right> {
        while self.from < Bit::COUNT {
            let bit = Bit { bit: self.from };
            self.from += 1;
            if bit.is_in(self.mask) {
                return Some(Right { bit: bit.bit });
            }
        }
        None
    }
}

impl Mask {
    /// Returns the rights of the set, in ascending order of their bits.
    pub fn rights(self) -> Rights
        ensures { result ≡ rights_of self.bits }
    {
        Rights {
            mask: self,
            from: 0,
        }
    }
}

impl From<Right> for Mask {
    ghost from_gives = { λ right mask. mask.bits ≡ 2 ^ right.bit };

    fn from(right: Right) -> Mask {
        Mask {
            bits: 1 << right.bit,
        }
    }
}
