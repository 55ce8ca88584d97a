//! Which differences of two lists a search looks for.
ghost use Rattle.std.specs.Prelude.{◌≡◌};
ghost use Rattle.acl_normal.specs.Common.{has_bit, ℕ};
ghost use Rattle.acl_normal.specs.internal.comparison.Directions.{differ_in};

use acl_perm::Mask;

/// Which differences of two lists a search looks for.
#[derive(Clone, Copy)]
pub enum Direction {
    /// One list, either the first or the second, grants a right that the other denies.
    Either,
    /// The first list grants a right that the second denies.
    Over,
}

impl Direction {
    /// Returns whether the answers of the first and of the second list differ in this direction.
    pub(crate) fn differ(self, here: bool, there: bool) -> bool
        ensures { result ≡ differ_in self here there }
    {
        match self {
            Direction::Either => here != there,
            Direction::Over => here && !there,
        }
    }

    /// Returns the rights on which the answers differ in this direction, given the rights that each list grants.
    pub(crate) fn differing(self, here: Mask, there: Mask) -> Mask
        ensures { (bit : ℕ) → has_bit result.bits bit
            ≡ differ_in self (has_bit here.bits bit) (has_bit there.bits bit) }
    {
        let over = here.difference(there);
        match self {
            Direction::Either => over.union(there.difference(here)),
            Direction::Over => over,
        }
    }
}
