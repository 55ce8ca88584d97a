//! One access right, as the number of its bit.
ghost use Rattle.std.specs.Prelude.{◌≡◌, Some, IfSome, IsSome, IsTrue, ◌↔◌};
ghost use Rattle.acl_perm.specs.Bits.{all_rights, has_bit};
ghost use Rattle.acl_perm.specs.Names.{right_name};

use crate::bit::Bit;
use crate::bit_names::first_name;
use crate::mask::Mask;
use crate::right_names::RIGHTS;
use std::fmt;

/// One of the sixteen access rights of an NFSv4 ACE, as the number of its bit: 0 to 10, or 16 to 20 (RFC 8881, section
/// 6.2.1.3.1). Rights are ordered by their numbers.
#[derive(Clone, Copy, Debug, PartialEq, Eq, PartialOrd, Ord, Hash)]
pub struct Right {
    pub bit: usize,
    ghost within: { IsTrue (has_bit all_rights bit) },
}

impl Right {
    /// One more than the greatest number of a right.
    pub const END: usize = Bit::COUNT;

    /// Returns the right of a bit, or `None` if the number is not that of one of the sixteen rights.
    #[tactic(auto, using(crate::proofs::Sets::right_below))]
    pub fn new(bit: usize) -> Option<Right>
        ensures within { IsSome result ↔ IsTrue (has_bit all_rights bit) }
        ensures value { IfSome result (λ right. right.bit ≡ bit) }
    {
        if bit < Bit::COUNT && (Bit { bit }).is_in(Mask::ALL) {
            Some(Right { bit })
        } else {
            None
        }
    }

    /// Returns the number of the bit, from 0: the mask of the right is 2 to the power of this number.
    pub fn bit(self) -> usize
        ensures value { result ≡ self.bit }
        ensures within { IsTrue (has_bit all_rights result) }
    {
        self.bit
    }

    /// Returns the first name of the right in RFC 8881, section 6.2.1.3.1, without `ACE4_`.
    pub fn name(self) -> &'static str
        ensures { Some result.now ≡ right_name self.bit }
    {
        match first_name(&RIGHTS, Mask::from(self).bits) {
            Some(name) => name,
            // The table has a row of each right.
            None => unreachable!(),
        }
    }
}

/// Writes the name of the right.
impl fmt::Display for Right {
    ghost output = { λ right. right_name right.bit };

    fn fmt<W: fmt::Write>(&self, f: &mut fmt::Formatter<W>) -> fmt::Result {
        f.write_str(self.name())
    }
}
